use crate::Status;
use m3_terms::{Patterns, Text};
use ssap_items::Heads;

/// What a query wishes for: the triples that fit one of the templates, or the answer to a query in SPARQL.
#[derive(Debug, Drop)]
pub enum Wish {
    Templates(Patterns),
    Sparql(Text),
}

/// What a request asks for.
#[derive(Debug, Drop)]
pub enum Ask {
    Join,
    Leave,
    /// The triples that fit a template of `remove` go, those of `insert` come, and `confirm` says whether a confirm of
    /// success is wanted. A request that only inserts or only removes has the other list empty.
    Update {
        remove: Patterns,
        insert: Patterns,
        confirm: bool,
    },
    Query(Wish),
    Subscribe(Wish),
    /// The subscription whose number this text is in decimal.
    Unsubscribe(Text),
}

/// A request: the heads of its message, and what it asks for.
#[derive(Debug, Drop)]
pub struct Request {
    pub heads: Heads,
    pub ask: Ask,
}

/// What a message comes to: a request, a wrong one with the status that refuses it, or none that can be answered.
#[derive(Debug, Drop)]
pub enum Arrived {
    Request(Request),
    Wrong { heads: Heads, status: Status },
    NotRequest,
}
