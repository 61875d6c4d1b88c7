ghost use Rattle.std.specs.Prelude.{◌≡◌};
ghost use Rattle.sparql_text.specs.declared.fault.ReadFault.TheVariants.{NoMemory as OutOfMemory};

use m3_terms::NoMemory;

/// A count of a query text that has a limit.
#[derive(Clone, Copy, Debug, PartialEq, Eq)]
pub enum Limit {
    /// Distinct variables.
    Variables,
    /// Triple patterns, each counted at the token of its object.
    Patterns,
    /// The words UNION and OPTIONAL.
    Operators,
    /// The words FILTER and the signs `&&` and `||`.
    Conditions,
    /// The braces and parentheses that are open.
    Nesting,
    /// The bytes of a term in a triple pattern or a FILTER.
    Term,
}

/// Why a text says no query. The first token from the left that faults decides.
#[derive(Clone, Copy, Debug, PartialEq, Eq)]
pub enum ReadFault {
    /// At this byte stands a token that continues no query or whose prefix is not declared, or no token, or the end of a
    /// text that is no whole query.
    NotInProfile { place: usize },
    /// At this byte stands a token that continues a query and passes a limit.
    OverLimit { which: Limit, place: usize },
    /// The text is a query but for the word DISTINCT.
    NotDistinct,
    /// Out of memory.
    NoMemory,
}

impl From<NoMemory> for ReadFault {
    ghost from_gives = { λ _ fault. fault ≡ OutOfMemory };

    fn from(_refused: NoMemory) -> ReadFault {
        ReadFault::NoMemory
    }
}
