ghost use Rattle.std.specs.Prelude.{◌≡◌, ◌+◌, ◌-◌, ◌^◌, ◌≤◌, min, length};
ghost use Rattle.std.proofs.Common.{arith, length-append};
ghost use Rattle.ssap_items.specs.Canon.{canonical};

use crate::out::Out;
use crate::spell::Spell;
use ssap_items::Envelope;
use std::convert::Infallible;

/// Counts the bytes of the pieces, and stands still at the greatest u64.
#[derive(Drop)]
struct Count {
    bytes: u64,
}

impl Out for Count {
    type Fault = Infallible;

    ghost puts = { λ s t xs. s.bytes ≤ 2 ^ 64 - 1 → t.bytes ≡ min (s.bytes + length xs) (2 ^ 64 - 1) };

    ghost stops = { λ _ _ _. ⊥ };

    fn put(&mut self, bytes: &[u8]) -> Result<(), Infallible> {
        self.bytes = self.bytes.saturating_add(bytes.len() as u64);
        Ok(())
    }

    ghost nothing = { λ s fits. Prim.omega arith };

    ghost further = { λ s t u xs ys p q fits. Prim.omega (arith, length-append xs ys) };

    ghost stops_behind = { λ s t u xs ys p q. q };

    ghost stops_before = { λ s t xs ys p. p };
}

/// How many bytes the canonical spelling of an envelope has, or the greatest u64 where it has more. It takes no memory.
pub fn length(envelope: &Envelope) -> u64
    ensures { result ≡ min (length (canonical envelope.now)) (2 ^ 64 - 1) }
{
    let mut count = Count { bytes: 0 };
    match envelope.put(&mut count) {
        Ok(()) => count.bytes,
        Err(never) => match never {},
    }
}
