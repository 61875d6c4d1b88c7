use kp_client::Client;
use m3_terms::{Bytes, Text};
use ssap_encode::to_bytes;
use ssap_items::{Heads, MessageType, Transaction};
use ssap_shape::{Ask, Request, request_envelope};
use std::alloc::Global;
use std::test::Fail;

const JOIN: &[u8] =
    b"<SSAP_message><message_type>REQUEST</message_type><transaction_type>JOIN</transaction_type><transaction_id>1</transaction_id><node_id>k</node_id><space_id>X</space_id></SSAP_message>";

/// The first request of the node k to the space X: it asks to join.
fn joins(alloc: Global) -> Result<Bytes, Fail> {
    let mut client = Client::new(Text::read(alloc, b"X")?, Text::read(alloc, b"k")?);
    Ok(client.request(alloc, &Ask::Join, Transaction::Join)?)
}

#[test]
fn a_client_asks_to_join(rt: HostRuntime) -> Result<(), Fail> {
    assert_eq!(rt; joins(rt.alloc())?.as_slice(), JOIN);
    Ok(())
}

/// The same request, made of its parts.
fn made(alloc: Global) -> Result<Bytes, Fail> {
    let heads = Heads {
        message: MessageType::Request,
        transaction: Transaction::Join,
        transaction_id: Text::read(alloc, b"1")?,
        node_id: Text::read(alloc, b"k")?,
        space_id: Text::read(alloc, b"X")?,
    };
    let request = Request {
        heads,
        ask: Ask::Join,
    };
    Ok(to_bytes(alloc, &request_envelope(alloc, &request)?)?)
}

#[test]
fn a_request_is_made_of_its_parts(rt: HostRuntime) -> Result<(), Fail> {
    assert_eq!(rt; made(rt.alloc())?.as_slice(), JOIN);
    Ok(())
}
