ghost use Rattle.std.specs.Prelude.{◌≡◌, ◌≤◌, ◌+◌, ◌++◌, take, drop, length, IfOk, OnErr};
ghost use Rattle.ssap_machine.specs.Progress.{Faults};
ghost use Rattle.ssap_decode.specs.Unfinished.{Reads};

use ssap_machine::{Progress, Stack, advance};
use std::alloc::AllocError;

/// What ends a walk along the bytes of a message.
#[derive(Clone, Copy)]
pub(crate) enum Halt {
    /// The message is whole.
    Whole,
    /// No byte is left.
    Half,
    /// The next byte does not go on.
    Stuck,
}

/// How far bytes lead a machine: so many are whole lexemes, and up to the reach they begin one more.
#[derive(Drop)]
pub(crate) struct Walked {
    pub stack: Stack,
    pub count: usize,
    pub reach: usize,
    pub halt: Halt,
}

/// Leads the machine along the bytes as far as they go.
pub(crate) fn walk(stack: &Stack, bytes: &[u8]) -> Walked
    ensures { Reads stack.now bytes.now result }
{
    let mut next = *stack;
    match advance(&mut next, bytes) {
        Progress::Whole { taken } => Walked {
            stack: next,
            count: taken,
            reach: taken,
            halt: Halt::Whole,
        },
        Progress::Half { from } => Walked {
            stack: next,
            count: from,
            reach: bytes.len(),
            halt: Halt::Half,
        },
        Progress::Fault { place } => walk_up_to(stack, bytes, place),
    }
}

/// Leads the machine along the bytes up to the offset of a fault.
fn walk_up_to(stack: &Stack, bytes: &[u8], place: usize) -> Walked
    requires { Faults stack.now bytes.now place }
    ensures { Reads stack.now bytes.now result }
{
    let mut next = *stack;
    match advance(&mut next, &bytes[..place]) {
        Progress::Half { from } => Walked {
            stack: next,
            count: from,
            reach: place,
            halt: Halt::Stuck,
        },
        Progress::Whole { .. } => unreachable!(),
        Progress::Fault { .. } => unreachable!(),
    }
}

/// Puts the piece behind the bytes of a message as far as the message goes on with it, and answers where the machine is
/// then.
pub(crate) fn extend(
    message: &mut Vec<u8>,
    stack: &Stack,
    read: usize,
    piece: &[u8],
) -> Result<Walked, AllocError>
    requires { read ≤ length message.old.items }
    ensures reads { IfOk result (λ walked. Reads stack.now (drop read (message.old.items ++ piece.now)) walked) }
    ensures kept { IfOk result (λ walked. message.new.items ≡ take (read + walked.reach) (message.old.items ++ piece.now)) }
    ensures unchanged { OnErr result (message.new.items ≡ message.old.items) }
{
    message.extend_from_slice(piece)?;
    let walked = walk(stack, &message[read..]);
    message.truncate(read + walked.reach);
    Ok(walked)
}
