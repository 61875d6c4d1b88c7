ghost use Rattle.std.specs.Prelude.{◌≡◌};
ghost use Rattle.pattern_join.specs.Bgp.{fault_of};
ghost use Rattle.pattern_join.specs.declared.fault.EvalFault.TheVariants.{NoMemory as Refused};

use m3_terms::NoMemory;
use sparql_algebra::RowsFault;

/// Why a query has no answer.
#[derive(Clone, Copy, Debug, PartialEq, Eq)]
pub enum EvalFault {
    /// The answer is wider than `WIDTH_LIMIT`.
    TooWide,
    /// Out of memory.
    NoMemory,
}

impl From<NoMemory> for EvalFault {
    ghost from_gives = { λ _ fault. fault ≡ Refused };

    fn from(_refused: NoMemory) -> EvalFault {
        EvalFault::NoMemory
    }
}

impl From<RowsFault> for EvalFault {
    ghost from_gives = { λ rows fault. fault ≡ fault_of rows };

    fn from(rows: RowsFault) -> EvalFault {
        match rows {
            RowsFault::TooMany => EvalFault::TooWide,
            RowsFault::NoMemory => EvalFault::NoMemory,
        }
    }
}
