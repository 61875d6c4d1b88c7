ghost use Rattle.std.specs.Prelude.{◌≡◌, ◌++◌, IfOk};
ghost use Rattle.std.proofs.Common.{sym, ap, ◌∙◌, append-nil, append_assoc};
ghost use Rattle.ssap_items.specs.Canon.{canonical};

use crate::out::Out;
use crate::spell::Spell;
use m3_terms::{Bytes, NoMemory};
use ssap_items::Envelope;
use std::alloc::Global;

/// A vector takes each piece at its end.
impl Out for Vec<u8> {
    type Fault = NoMemory;

    ghost puts = { λ s t xs. t.items ≡ s.items ++ xs };

    ghost stops = { λ _ _ _. Unit {0} };

    fn put(&mut self, bytes: &[u8]) -> Result<(), NoMemory> {
        self.extend_from_slice(bytes)?;
        Ok(())
    }

    ghost nothing = { λ s. sym (append-nil s.items) };

    ghost further = { λ s t u xs ys p q. q ∙ ap (λ l. l ++ ys) p ∙ append_assoc s.items xs ys };

    ghost stops_behind = { λ s t u xs ys p q. tt };

    ghost stops_before = { λ s t xs ys p. tt };
}

/// The canonical spelling of an envelope.
pub fn to_bytes(alloc: Global, envelope: &Envelope) -> Result<Bytes, NoMemory>
    ensures { IfOk result (λ bytes. bytes ≡ canonical envelope.now) }
{
    let mut out = Vec::new(alloc);
    envelope.put(&mut out)?;
    Ok(Bytes::from_vec(out))
}
