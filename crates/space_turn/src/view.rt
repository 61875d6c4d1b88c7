//! What a seat knows. No value of these types is made when the program runs.
use std::collections::LinkedList;

/// An entry of a history: the number of the seat that called, and the call.
pub struct Entry<C> {
    pub seat: u64,
    pub call: C,
}

/// What a seat knows of its turn. A seat that was joined to another is not live. It owns its number and each `stride`-th one
/// from there on, for the seats that are split from it. While it holds the turn it keeps the history. Of the seat that was
/// joined to it last it was told the history and the number.
pub struct View<C, X> {
    pub live: bool,
    pub root: X,
    pub number: u64,
    pub stride: u64,
    pub seen: LinkedList<Entry<C>>,
    pub mine: LinkedList<C>,
    pub found: u64,
    pub looks: u64,
    pub holds: bool,
    pub kept: LinkedList<Entry<C>>,
    pub told: LinkedList<Entry<C>>,
    pub met: u64,
}
