ghost use Rattle.std.specs.Prelude.{◌∷◌, [], ◌++◌, ◌<◌, ◌≤◌, drop, length};
ghost use Rattle.ssap_decode.specs.Decoding.{message_limit};
ghost use Rattle.ssap_decode.specs.Unfinished.{FaultAt, IsUnfinished, Reads};

use crate::MESSAGE_LIMIT;
use crate::decoder::Fault;
use crate::walk::{Halt, Walked, walk};
use ssap_machine::Stack;

/// More bytes than a begun lexeme has, and one.
const LEXEME: usize = 64;

/// Leads the machine along the bytes of a begun lexeme and one more. It takes no memory.
fn walk_one(stack: &Stack, pending: &[u8], byte: u8) -> Walked
    requires { length pending.now < LEXEME }
    ensures { Reads stack.now (pending.now ++ byte ∷ []) result }
{
    let mut bytes = [0; LEXEME];
    bytes[..pending.len()].copy_from_slice(pending);
    bytes[pending.len()] = byte;
    walk(stack, &bytes[..pending.len() + 1])
}

/// The fault that stands at a byte behind an unfinished message, or `None`. It takes no memory.
pub(crate) fn fault_at(message: &[u8], stack: &Stack, read: usize, byte: u8) -> Option<Fault>
    requires unfinished { IsUnfinished message.now stack.now read }
    requires begun { 0 < length message.now }
    requires fits { length message.now ≤ message_limit }
    ensures { FaultAt message.now byte result }
{
    let walked = walk_one(stack, &message[read..], byte);
    if let Halt::Stuck = walked.halt {
        return Some(Fault::Syntax);
    }
    if message.len() == MESSAGE_LIMIT {
        return Some(Fault::TooLong);
    }
    None
}
