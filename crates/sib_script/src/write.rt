ghost use Rattle.std.specs.Prelude.{◌≡◌, ◌≤◌, ◌∷◌, ◌++◌, [], drop};
ghost use Rattle.std.specs.Fmt.{decimal};
ghost use Rattle.sib_io.specs.Causes.{HasCause, Writes};
ghost use Rattle.sib_script.specs.Script.{entry_spelling, IsEntry};
ghost use Rattle.sib_script.specs.Steps.{delivery_prefix};
ghost use Rattle.sib_script.specs.declared.entry.Entry.TheVariants as entries;

use crate::Entry;
use itoa::write_digits;
use m3_terms::Bytes;
use sib_io::{Failed, Sink};

/// The room for the first line of an entry: two numbers of at most 20 digits, and a byte before, between and behind them.
const LINE_ROOM: usize = 43;

/// Writes an entry to a sink, as `ScriptReader` reads it. It takes no memory, and does not flush the sink.
///
/// The entry's link, where it names one, is at least 1, and its delivery has at most [`PIECE_LIMIT`](crate::PIECE_LIMIT)
/// bytes. After `Failed` the sink was given a prefix of the entry.
pub fn write_entry<K: Sink>(entry: &Entry, sink: &mut K) -> Result<(), Failed>
    requires allowed { IsEntry entry.now }
    ensures written { Writes (K.given sink.old) (K.given sink.new) result (entry_spelling entry.now) }
    ensures cause { HasCause (K.faults sink.old) (K.faults sink.new) result }
{
    match entry {
        Entry::NewLink => write_new_link(sink),
        Entry::Bytes { link, bytes } => write_delivery(*link, bytes, sink),
        Entry::End { link } => write_end(*link, sink),
    }
}

/// Writes that the next link opens.
#[tactic(auto, unfolding(crate::specs::Script::entry_spelling))]
fn write_new_link<K: Sink>(sink: &mut K) -> Result<(), Failed>
    ensures written { Writes (K.given sink.old) (K.given sink.new) result (entry_spelling entries.NewLink) }
    ensures cause { HasCause (K.faults sink.old) (K.faults sink.new) result }
{
    sink.write_all(b"+\n")
}

/// Writes a delivery on a link.
fn write_delivery<K: Sink>(link: u32, bytes: &Bytes, sink: &mut K) -> Result<(), Failed>
    ensures written { Writes (K.given sink.old) (K.given sink.new) result (entry_spelling (entries.Bytes link bytes.now)) }
    ensures cause { HasCause (K.faults sink.old) (K.faults sink.new) result }
{
    let mut line = [0; LINE_ROOM];
    let start = put_delivery_line(link, bytes.len(), &mut line);
    write_pieces(line.split_at(start).1, bytes.as_slice(), b"\n", sink)
}

/// Writes that the input of a link ends.
fn write_end<K: Sink>(link: u32, sink: &mut K) -> Result<(), Failed>
    ensures written { Writes (K.given sink.old) (K.given sink.new) result (entry_spelling (entries.End link)) }
    ensures cause { HasCause (K.faults sink.old) (K.faults sink.new) result }
{
    let mut line = [0; LINE_ROOM];
    let start = put_end_line(link, &mut line);
    sink.write_all(line.split_at(start).1)
}

/// Writes three pieces, one behind another.
fn write_pieces<K: Sink>(
    first: &[u8],
    second: &[u8],
    third: &[u8],
    sink: &mut K,
) -> Result<(), Failed>
    ensures written { Writes (K.given sink.old) (K.given sink.new) result (first.now ++ (second.now ++ third.now)) }
    ensures cause { HasCause (K.faults sink.old) (K.faults sink.new) result }
{
    sink.write_all(first)?;
    sink.write_all(second)?;
    sink.write_all(third)
}

/// Puts the line of a delivery of so many bytes at the end of the room, and answers where it starts.
fn put_delivery_line(link: u32, count: usize, line: &mut [u8; LINE_ROOM]) -> usize
    ensures within { result ≤ 43 }
    ensures line { drop result line.new ≡ delivery_prefix link (decimal count ++ 10 ∷ []) }
{
    let count_at = put_number_line(count as u64, line);
    line[count_at - 1] = b' ';
    let link_at = write_digits(u64::from(link), line, count_at - 1);
    line[link_at - 1] = b'>';
    link_at - 1
}

/// Puts the line of an end at the end of the room, and answers where it starts.
fn put_end_line(link: u32, line: &mut [u8; LINE_ROOM]) -> usize
    ensures within { result ≤ 43 }
    ensures line { drop result line.new ≡ 45 ∷ (decimal link ++ 10 ∷ []) }
{
    let link_at = put_number_line(u64::from(link), line);
    line[link_at - 1] = b'-';
    link_at - 1
}

/// Puts a number and a line end at the end of the room, and answers where the number starts.
fn put_number_line(number: u64, line: &mut [u8; LINE_ROOM]) -> usize
    ensures room { 22 ≤ result }
    ensures within { result ≤ 43 }
    ensures line { drop result line.new ≡ decimal number ++ 10 ∷ [] }
{
    line[LINE_ROOM - 1] = b'\n';
    write_digits(number, line, LINE_ROOM - 1)
}
