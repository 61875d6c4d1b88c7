ghost use Rattle.std.specs.Prelude.{◌≡◌, [], take, IfOk, OnErr};
ghost use Rattle.ssap_grammar.specs.Message.{Spells};
ghost use Rattle.ssap_machine.specs.Machine.{IsMessage};

use m3_terms::NoMemory;
use ssap_items::Envelope;
use ssap_read::read_envelope;
use std::alloc::Global;

/// The envelope that the bytes of a whole message spell.
pub(crate) fn envelope_of(alloc: Global, bytes: &[u8]) -> Result<Envelope, NoMemory>
    requires { IsMessage bytes.now }
    ensures { IfOk result (λ envelope. Spells bytes.now envelope) }
{
    match read_envelope(alloc, bytes)? {
        Some(envelope) => Ok(envelope),
        None => unreachable!(),
    }
}

/// The envelope of a whole message, whose bytes are let go then; out of memory, all but the old ones are.
pub(crate) fn whole_envelope(
    alloc: Global,
    message: &mut Vec<u8>,
    old: usize,
) -> Result<Envelope, NoMemory>
    requires { IsMessage message.old.items }
    ensures spelled { IfOk result (λ envelope. Spells message.old.items envelope) }
    ensures emptied { IfOk result (λ _. message.new.items ≡ []) }
    ensures back { OnErr result (message.new.items ≡ take old message.old.items) }
{
    match envelope_of(alloc, message) {
        Ok(envelope) => {
            message.clear();
            Ok(envelope)
        }
        Err(refused) => {
            message.truncate(old);
            Err(refused)
        }
    }
}
