//! Reads white space, texts and the values of attributes at the start of bytes, exactly by the grammar of SSAP messages.
#![tactic(auto)]

mod bytes;
mod end;
mod marks;
mod pieces;
mod spaces;
mod texts;
mod values;

pub use spaces::skip_spaces;
pub use texts::read_text;
pub use values::read_attvalue;
