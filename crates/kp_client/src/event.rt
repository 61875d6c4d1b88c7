use ssap_shape::{Confirm, Indication};

/// What a client is told: its request was confirmed with success, or an indication came meanwhile.
#[derive(Debug, Drop)]
pub enum Event {
    Confirmed(Confirm),
    Passed(Indication),
}
