use crate::Status;
use answer_bodies::{Answer, Difference};
use ssap_items::Heads;

/// The answer to a request: its heads, the status, and where the request has them the number of its subscription and the
/// answer to its query.
#[derive(Debug, Drop)]
pub struct Confirm {
    pub heads: Heads,
    pub status: Status,
    pub subscription: Option<u64>,
    pub answer: Option<Answer>,
}

/// An event of a subscription: its answer changed, under a number that counts these changes, or it ended.
#[derive(Debug, Drop)]
pub enum Indication {
    Changes {
        heads: Heads,
        subscription: u64,
        sequence: u64,
        difference: Difference,
    },
    Ended {
        heads: Heads,
        subscription: u64,
        status: Status,
    },
}

/// What a message from a broker tells a client: the confirm of a request, an indication, or nothing that is either.
#[derive(Debug, Drop)]
pub enum Incoming {
    Confirm(Confirm),
    Indication(Indication),
    Other { heads: Heads },
}
