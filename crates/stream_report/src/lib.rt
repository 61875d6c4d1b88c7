//! The reports on a stream of messages: whether an input is a stream, and its messages in their canonical spelling.
#![tactic(auto)]

mod ending;
mod laws;
mod lines;
mod reporter;
mod run;
mod verdict;

pub use ending::Ending;
pub use laws::{
    endings_tell_the_input, failures_have_causes, faultless_reports_are_complete,
    inputs_have_one_report, stops_are_placed, streams_are_counted,
};
pub use run::write_report;
pub use verdict::{Fault, Report, Verdict};
