ghost use Rattle.std.specs.Prelude.{◌≡◌, ◌==◌, if◌then◌else◌, ◌+◌, ◌-◌, ◌*◌, ◌<◌, ◌≤◌, ◌↔◌, ◌++◌, ◌∷◌, [], List, ℕ, true, length, take, drop, IfOk, OnErr, IsTrue, MatchOption};
ghost use Rattle.sib_script.specs.Steps.{IsStep, IsRoomWanted, GoesOn, Begins, Lengthens, Moves, Stops, Walks, Leads, IsLast, IsEnd, entry_of};
ghost use Rattle.sib_script.specs.declared.step.Step.TheVariants.{Start, Link, Count, Inside, Close};

use crate::{Entry, PIECE_LIMIT};
use m3_terms::Bytes;
use std::alloc::{AllocError, Global};
use std::mem;

/// How far the reading of one entry has come.
#[derive(Clone, Copy)]
pub enum Step {
    /// At the start of an entry.
    Start,
    /// After `+`.
    Plus,
    /// After `>`.
    Sign,
    /// In the number of a delivery's link, which has this value so far.
    Link { link: u32 },
    /// After that number and the space.
    Space { link: u32 },
    /// In the count of bytes, which has this value so far.
    Count { link: u32, count: u32 },
    /// In a delivery's bytes, of which so many are left.
    Inside { link: u32, left: usize },
    /// Before the line end that closes a delivery.
    Close { link: u32 },
    /// After `-`.
    Minus,
    /// In the number of the link whose input ends, which has this value so far.
    Ended { link: u32 },
}

/// Takes bytes one by one up to a delivery's own bytes, the last line end or a byte with which no entry goes on, and
/// answers the step there and how many were taken.
fn walk(start: Step, bytes: &[u8]) -> (Step, usize)
    ensures within { result.1 ≤ length bytes.now }
    ensures walks { Walks start (take result.1 bytes.now) result.0 }
    ensures stops { Stops result.0 (drop result.1 bytes.now) }
{
    let mut step = start;
    for (at, byte) in bytes.iter().enumerate() {
        match next_step(step, *byte) {
            Some(next) => step = next,
            None => return (step, at),
        }
    }
    (step, bytes.len())
}

/// Takes a delivery's own bytes, as many as are there, and answers the step then and how many.
fn fill(step: Step, piece: &mut Vec<u8>, bytes: &[u8]) -> Result<(Step, usize), AllocError>
    ensures leads { IfOk result (λ r. Stops step bytes.now → Leads step piece.old.items bytes.now r.1 r.0 piece.new.items) }
    ensures unchanged { OnErr result (piece.new.items ≡ piece.old.items) }
    ensures wanted { OnErr result (IsRoomWanted step bytes.now) }
{
    let Step::Inside { link, left } = step else {
        return Ok((step, 0));
    };
    let count = left.min(bytes.len());
    piece.extend_from_slice(&bytes[..count])?;
    Ok((piece_step(link, left - count), count))
}

/// Takes bytes up to an entry's last line end or a byte with which no entry goes on.
pub fn advance(step: Step, piece: &mut Vec<u8>, bytes: &[u8]) -> Result<(Step, usize), AllocError>
    ensures leads { IfOk result (λ r. Leads step piece.old.items bytes.now r.1 r.0 piece.new.items) }
    ensures unchanged { OnErr result (piece.new.items ≡ piece.old.items) }
    ensures wanted { OnErr result (IsStep step piece.old.items → GoesOn step piece.old.items bytes.now) }
{
    let (next, header) = walk(step, bytes);
    let (last, count) = fill(next, piece, &bytes[header..])?;
    Ok((last, header + count))
}

/// Whether the next byte ends an entry.
pub fn is_end(step: Step, rest: &[u8]) -> bool
    ensures { IsTrue result ↔ IsEnd step rest.now }
{
    let is_last = matches!(step, Step::Plus | Step::Close { .. } | Step::Ended { .. });
    is_last && rest.first() == Some(&b'\n')
}

/// The entry that a line end ends; the piece is empty then.
pub fn whole_entry(alloc: Global, step: Step, piece: &mut Vec<u8>) -> Entry
    ensures entry { result ≡ entry_of step piece.old.items }
    ensures emptied { IsStep step piece.old.items → IsLast step → piece.new.items ≡ [] }
{
    match step {
        Step::Close { link } => Entry::Bytes {
            link,
            bytes: Bytes::from_vec(mem::replace(piece, Vec::new(alloc))),
        },
        Step::Ended { link } => Entry::End { link },
        _ => Entry::NewLink,
    }
}

/// The step after one byte of a header, or `None` where no entry goes on with it or it ends one.
fn next_step(step: Step, byte: u8) -> Option<Step>
    ensures { Moves step byte result }
{
    match step {
        Step::Start => first_step(byte),
        Step::Sign => Some(Step::Link {
            link: first_digit(byte, 1)?,
        }),
        Step::Link { link } => link_step(link, byte),
        Step::Space { link } => Some(Step::Count {
            link,
            count: first_digit(byte, 0)?,
        }),
        Step::Count { link, count } => count_step(link, count, byte),
        Step::Minus => Some(Step::Ended {
            link: first_digit(byte, 1)?,
        }),
        Step::Ended { link } => Some(Step::Ended {
            link: longer_number(link, byte, u32::MAX)?,
        }),
        Step::Plus | Step::Inside { .. } | Step::Close { .. } => None,
    }
}

fn first_step(byte: u8) -> Option<Step>
    ensures { Moves Start byte result }
{
    if byte == b'+' {
        Some(Step::Plus)
    } else if byte == b'>' {
        Some(Step::Sign)
    } else if byte == b'-' {
        Some(Step::Minus)
    } else {
        None
    }
}

fn link_step(link: u32, byte: u8) -> Option<Step>
    ensures { Moves (Link link) byte result }
{
    if byte == b' ' {
        return Some(Step::Space { link });
    }
    let longer = longer_number(link, byte, u32::MAX)?;
    Some(Step::Link { link: longer })
}

fn count_step(link: u32, count: u32, byte: u8) -> Option<Step>
    ensures { Moves (Count link count) byte result }
{
    if byte == b'\n' {
        return Some(piece_step(link, count as usize));
    }
    let longer = longer_number(count, byte, PIECE_LIMIT as u32)?;
    Some(Step::Count {
        link,
        count: longer,
    })
}

/// The number that one digit writes, where it is at least so great.
fn first_digit(byte: u8, least: u32) -> Option<u32>
    ensures { MatchOption result (¬ Begins byte least) (λ value. Begins byte least × (value ≡ byte - 48)) }
{
    if !byte.is_ascii_digit() {
        return None;
    }
    let value = u32::from(byte - b'0');
    if value < least { None } else { Some(value) }
}

/// The number with one digit more, where it may have one.
fn longer_number(value: u32, byte: u8, limit: u32) -> Option<u32>
    ensures { MatchOption result (¬ Lengthens value byte limit) (λ longer. Lengthens value byte limit × (longer ≡ value * 10 + (byte - 48))) }
{
    if value == 0 || !byte.is_ascii_digit() {
        return None;
    }
    let longer = u64::from(value) * 10 + u64::from(byte - b'0');
    if longer > u64::from(limit) {
        return None;
    }
    Some(longer as u32)
}

/// The step where so many bytes of a delivery are left.
fn piece_step(link: u32, left: usize) -> Step
    ensures { result ≡ (if left == 0 then Close link else Inside link left) }
{
    if left == 0 {
        Step::Close { link }
    } else {
        Step::Inside { link, left }
    }
}
