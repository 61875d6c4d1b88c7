//! What a client prints of a broker's answers is true: laws alone.
#![tactic(auto)]

mod laws;

pub use laws::printed_answers_are_true;
