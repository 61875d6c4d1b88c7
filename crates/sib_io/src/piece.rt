//! Bytes that are kept back until they are written in one piece.
ghost use Rattle.std.specs.Prelude.{◌≡◌, ◌+◌, ◌-◌, ◌≤◌, ◌↔◌, ◌++◌, [], length, drop, IfOk, IsTrue, if◌then◌else◌, vec_len, vec_capacity};
ghost use Rattle.sib_io.specs.Gathered.{HandsOn};

use crate::real::write_out;
use m3_terms::NoMemory;
use std::alloc::Global;
use std::io::Write;
use std::marker::Model;

/// The most bytes that are kept back at once: 64 KiB.
pub const PIECE_LIMIT: usize = 65_536;

/// At most `PIECE_LIMIT` bytes, with memory for as many.
#[derive(Drop)]
pub(crate) struct Piece {
    bytes: Vec<u8>,
}

impl Model for Piece {
    ghost use Rattle.std.specs.Prelude.{List, ℕ, ◌≤◌, vec_len, vec_capacity};
    ghost use Rattle.sib_io.specs.declared.piece.TheConstants.{PIECE_LIMIT};

    ghost Value = { List ℕ };

    ghost view = { λ p. p.bytes.items };

    ghost invariant = { λ p. (vec_len p.bytes ≤ PIECE_LIMIT) × (PIECE_LIMIT ≤ vec_capacity p.bytes) };
}

impl Piece {
    /// No bytes yet. It takes all the memory that the piece will ever need.
    pub(crate) fn new(alloc: Global) -> Result<Piece, NoMemory>
        ensures { IfOk result (λ piece. piece ≡ []) }
    {
        Ok(Piece {
            bytes: Vec::with_capacity(alloc, PIECE_LIMIT)?,
        })
    }

    /// Appends the bytes where they fit, and says whether they do.
    pub(crate) fn put(&mut self, bytes: &[u8]) -> bool
        ensures fits { IsTrue result ↔ (length self.old + length bytes.now ≤ PIECE_LIMIT) }
        ensures bytes { self.new ≡ (if result then self.old ++ bytes.now else self.old) }
    {
        if bytes.len() > PIECE_LIMIT - self.bytes.len() {
            return false;
        }
        append(&mut self.bytes, bytes);
        true
    }

    /// Writes the bytes out, and says whether the writer took all. Those that it did not take stay.
    pub(crate) fn write_to<W: Write>(&mut self, writer: &mut W) -> bool
        ensures bytes { HandsOn (W.contents writer.old) (W.contents writer.new) self.old self.new }
        ensures all { IsTrue result ↔ (self.new ≡ []) }
    {
        let written = write_out(writer, self.bytes.as_slice());
        remove_prefix(&mut self.bytes, written);
        self.bytes.is_empty()
    }
}

/// Appends bytes for which there is room.
pub(crate) fn append(items: &mut Vec<u8>, bytes: &[u8])
    requires { vec_len items.old + length bytes.now ≤ vec_capacity items.old }
    ensures items { items.new.items ≡ items.old.items ++ bytes.now }
    ensures len { vec_len items.new ≡ vec_len items.old + length bytes.now }
    ensures capacity { vec_capacity items.old ≤ vec_capacity items.new }
{
    let Ok(()) = items.extend_from_slice(bytes) else {
        unreachable!()
    };
}

/// Removes so many first bytes. The capacity stays.
fn remove_prefix(items: &mut Vec<u8>, count: usize)
    requires { count ≤ vec_len items.old }
    ensures items { items.new.items ≡ drop count items.old.items }
    ensures len { vec_len items.new ≡ vec_len items.old - count }
    ensures capacity { vec_capacity items.new ≡ vec_capacity items.old }
{
    let len = items.len();
    items.as_mut_slice().copy_within(count..len, 0);
    items.truncate(len - count);
}
