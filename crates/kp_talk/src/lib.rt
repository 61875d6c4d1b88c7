//! A client's talk with a broker on an errand: its definition, and the run that talks so.
#![tactic(auto)]

mod asking;
mod ending;
mod errand;
mod finish;
mod following;
mod hearing;
mod laws;
mod lines;
mod party;
mod rows;
mod run;
mod stage;
mod words;

pub use ending::Ending;
pub use errand::{Errand, Task};
pub use finish::{Break, Finish};
pub use laws::{talks_are_once, talks_stay, words_name_one_errand};
pub use run::talk;
pub use words::{COUNT_LIMIT, count_of, errand_of, is_identifier};
