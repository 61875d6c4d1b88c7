//! Replay scripts: what came on which link, read and written entry by entry.
#![tactic(auto)]

mod entry;
mod laws;
mod reader;
mod step;
mod write;

pub use entry::{Entry, PIECE_LIMIT};
pub use laws::{
    entries_grow, one_reading, parts_begin_scripts, scripts_are_whole, splits_exist,
    written_is_read,
};
pub use reader::{ScriptFault, ScriptReader};
pub use write::write_entry;
