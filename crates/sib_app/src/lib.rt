//! The commands of the broker, and those of a client.
#![tactic(auto)]

mod command;
mod kp;
mod laws;
mod run;

pub use kp::kp_run;
pub use kp_talk::is_identifier;
pub use laws::words_name_one_command;
pub use made_script::make_script;
pub use run::sib_run;
pub use serve_links::{Half, LinkJob, ServeEnd, Served, sib_serve};
