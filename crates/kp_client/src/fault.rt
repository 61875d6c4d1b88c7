use m3_terms::{Columns, Row};
use ssap_items::{Heads, Transaction};
use ssap_shape::Status;

/// A confirm that a client awaits: the transaction of its request, and the number that is its transaction id in decimal.
#[derive(Clone, Copy, Debug)]
pub struct Awaited {
    pub transaction: Transaction,
    pub id: u64,
}

/// Why a client cannot go on as it wished.
#[derive(Debug, Drop)]
pub enum ClientFault {
    /// What came is neither an indication nor the confirm that is awaited.
    Unexpected { want: Awaited, got: Heads },
    /// The confirm that was awaited states no success.
    Refused { status: Status },
    /// Out of memory.
    NoMemory,
}

/// Why a mirror refuses a difference.
#[derive(Debug, Drop)]
pub enum MirrorFault {
    /// The difference is of another subscription.
    OtherSubscription { want: u64, got: u64 },
    /// The number of the difference is not the next one.
    Gap { want: u64, got: u64 },
    /// A side of the difference has another form than the answer. Triples are told as the columns `subject`, `predicate`,
    /// `object` and `object`, which no table has.
    OtherForm { want: Columns, got: Columns },
    /// The row is obsolete and not in the answer, or it is added and in the answer already.
    Conflict { row: Row },
    /// Out of memory.
    NoMemory,
}
