//! The generated script, in memory.

use made_script::make_script;
use sib_io::{Calls, MemSink};
use ssap_encode::EncodeFault;
use std::alloc::Global;
use std::test::Fail;

const START: &[u8] =
    b"+\n>1 186\n<SSAP_message><message_type>REQUEST</message_type><transaction_type>JOIN</transaction_type><transaction_id>1</transaction_id><node_id>w</node_id><space_id>trial</space_id></SSAP_message>\n";

const END: &[u8] =
    b"\n>1 588\n<SSAP_message><message_type>REQUEST</message_type><transaction_type>UPDATE</transaction_type><transaction_id>52</transaction_id><node_id>w</node_id><space_id>trial</space_id><parameter name=\"insert_graph\" encoding=\"RDF-M3\"><triple_list><triple><subject type=\"uri\">s0</subject><predicate>p0</predicate><object type=\"literal\">o0</object></triple></triple_list></parameter><parameter name=\"remove_graph\" encoding=\"RDF-M3\"><triple_list><triple><subject type=\"uri\">s20</subject><predicate>sib:any</predicate><object type=\"uri\">sib:any</object></triple></triple_list></parameter></SSAP_message>\n";

/// A sink with so much room.
fn sink(alloc: Global, room: usize) -> Result<MemSink, Fail> {
    Ok(MemSink::new(alloc, room, Calls::new(alloc))?)
}

#[test]
fn a_script_begins_with_its_join_and_ends_with_its_last_update(
    rt: HostRuntime,
) -> Result<(), Fail> {
    let mut made = sink(rt.alloc(), 100_000)?;
    assert_eq!(rt; make_script(rt.alloc(), 1, &mut made), Ok(()));
    assert!(rt; made.bytes().starts_with(START));
    assert!(rt; made.bytes().ends_with(END));
    Ok(())
}

#[test]
fn a_script_has_two_lines_for_each_request(rt: HostRuntime) -> Result<(), Fail> {
    let mut made = sink(rt.alloc(), 100_000)?;
    assert_eq!(rt; make_script(rt.alloc(), 21, &mut made), Ok(()));
    let ends = made.bytes().iter().filter(|byte| **byte == b'\n').count();
    assert_eq!(rt; ends, 145);
    Ok(())
}

#[test]
fn a_full_sink_is_a_write_fault(rt: HostRuntime) -> Result<(), Fail> {
    let mut made = sink(rt.alloc(), START.len())?;
    assert_eq!(rt;
        make_script(rt.alloc(), 1, &mut made),
        Err(EncodeFault::WriteFault)
    );
    assert!(rt; made.bytes() == START);
    Ok(())
}
