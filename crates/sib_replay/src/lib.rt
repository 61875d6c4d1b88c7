//! A replay of a script: the space, its links and the lines that answer their entries.
#![tactic(auto)]

mod acting;
mod ending;
mod hearing;
mod laws;
mod lines;
mod replay;
mod run;
mod session;
mod why;

pub use ending::{Ending, Fault};
pub use laws::{
    messages_are_written_as_sent, outputs_are_told, outputs_exist, spaces_are_run,
    subscriptions_are_followed,
};
pub use run::replay_script;
pub use session::Session;
pub use why::Why;
