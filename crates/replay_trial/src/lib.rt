//! A trial: the replay of a generated script, of whose answers the confirms and the indications are counted.
#![tactic(auto)]

mod kept;
mod laws;
mod output;
mod player;
mod replies;
mod run;

pub use laws::{
    fronts_tell_messages, messages_are_counted, trials_are_told, trials_exist,
    trials_replay_the_script,
};
pub use run::trial;
