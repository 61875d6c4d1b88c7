//! Answers, and the bodies that carry them in a message.
#![tactic(auto)]

mod answer;
mod differences;
mod fold;
mod item;
mod laws;
mod lists;
mod of_rows;
mod read;
mod write;

pub use answer::{Answer, Difference};
pub use differences::difference;
pub use laws::{
    answers_are_told, bodies_are_read_back, causes_refuse, differences_lead_on, empty_where_equal,
    folded_stays_in_order, worked_examples,
};
