//! Why a call was not made, and what a turn leaves.

/// Why `Turn::call` did not make the call.
#[derive(Clone, Copy, Debug, PartialEq, Eq)]
pub enum CallFault {
    /// The history has as many calls as it may have, 4,611,686,018,427,387,904.
    Worn { count: u64 },
    /// Out of memory.
    NoMemory,
}

/// Why `Turn::try_call` did not make the call.
#[derive(Clone, Copy, Debug, PartialEq, Eq)]
pub enum TryFault {
    /// Another seat holds the turn. The history has so many calls.
    Busy { count: u64 },
    /// The history has as many calls as it may have, 4,611,686,018,427,387,904.
    Worn { count: u64 },
    /// Out of memory.
    NoMemory,
}

/// What a turn leaves: its machine, or the word of a turn that a seat holds.
#[derive(Drop)]
pub enum Closed<M> {
    Machine(M),
    Held { word: u64 },
}
