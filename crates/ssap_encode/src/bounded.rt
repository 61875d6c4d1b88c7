ghost use Rattle.std.specs.Prelude.{◌≡◌, ◌+◌, ◌<◌, ◌≤◌, ◌++◌, length, IfOk, MatchOption, true, false};
ghost use Rattle.ssap_items.specs.Canon.{canonical};
ghost use Rattle.ssap_encode.specs.BoundedLaws.{puts_nothing, puts_further, refused_behind, refused_before};

use crate::out::Out;
use crate::spell::Spell;
use m3_terms::{Bytes, NoMemory};
use ssap_items::Envelope;
use std::alloc::Global;

/// Takes each piece at its end, as long as no more than so many bytes come together.
#[derive(Drop)]
struct Bounded {
    bytes: Vec<u8>,
    /// How many bytes still fit.
    left: usize,
    /// Whether a piece no longer fitted.
    full: bool,
}

impl Out for Bounded {
    type Fault = NoMemory;

    ghost puts = { λ s t xs. (t.bytes.items ≡ s.bytes.items ++ xs) × (s.left ≡ t.left + length xs) × (t.full ≡ s.full) };

    ghost stops = { λ s t xs. s.full ≡ false → t.full ≡ true → s.left < length xs };

    fn put(&mut self, bytes: &[u8]) -> Result<(), NoMemory> {
        if bytes.len() > self.left {
            self.full = true;
            return Err(NoMemory);
        }
        self.bytes.extend_from_slice(bytes)?;
        self.left -= bytes.len();
        Ok(())
    }

    ghost nothing = { λ s. puts_nothing s.bytes.items s.left s.full };

    ghost further = { λ s t u xs ys p q. puts_further s.bytes.items t.bytes.items u.bytes.items s.left t.left u.left s.full t.full u.full xs ys p q };

    ghost stops_behind = { λ s t u xs ys p q. refused_behind s.left t.left s.full t.full u.full xs ys (p.1) (p.2) q };

    ghost stops_before = { λ s t xs ys p. refused_before s.left s.full t.full xs ys p };
}

/// The canonical spelling of an envelope, or `None` where it has more than `most` bytes. The envelope is spelled once.
pub fn to_bytes_within(
    alloc: Global,
    envelope: &Envelope,
    most: usize,
) -> Result<Option<Bytes>, NoMemory>
    ensures { IfOk result (λ spelled. MatchOption spelled (most < length (canonical envelope.now))
        (λ bytes. (bytes ≡ canonical envelope.now) × (length bytes ≤ most))) }
{
    let mut out = Bounded {
        bytes: Vec::new(alloc),
        left: most,
        full: false,
    };
    match envelope.put(&mut out) {
        Ok(()) => Ok(Some(Bytes::from_vec(out.bytes))),
        Err(_) if out.full => Ok(None),
        Err(_) => Err(NoMemory),
    }
}
