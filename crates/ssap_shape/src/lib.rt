//! Requests as messages shape them, and the messages that answer them.
#![tactic(auto)]

mod asking;
mod asks;
mod fields;
mod laws;
mod name;
mod query;
mod ranks;
mod reply;
mod request;
mod send;
mod shapes;
mod status;
mod table;
mod templates;
mod told;
mod update;
mod words;

pub use asking::{asking_envelope, request_envelope};
pub use laws::{
    replies_are_told, requests_are_sayable, requests_are_understood, shape_once, shapes_are_sound,
    told_is_sound, told_once, worked_examples,
};
pub use reply::{Confirm, Incoming, Indication};
pub use request::{Arrived, Ask, Request, Wish};
pub use send::{confirm_envelope, indication_envelope};
pub use shapes::shape;
pub use status::Status;
pub use told::client_shape;
pub use words::number_text;
