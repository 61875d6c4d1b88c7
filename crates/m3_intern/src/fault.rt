ghost use Rattle.std.specs.Prelude.{◌≡◌};
ghost use Rattle.m3_intern.specs.declared.fault.InternFault.TheVariants.{NoMemory as Refused};

use m3_terms::NoMemory;

/// Why terms are not taken in.
#[derive(Clone, Copy, Debug, PartialEq, Eq)]
pub enum InternFault {
    /// The terms would cost `need` together, which is more than the limit. A sum past the greatest u64 counts as that
    /// number.
    Full { need: u64 },
    /// Out of memory.
    NoMemory,
}

impl From<NoMemory> for InternFault {
    ghost from_gives = { λ _ fault. fault ≡ Refused };

    fn from(_refused: NoMemory) -> InternFault {
        InternFault::NoMemory
    }
}
