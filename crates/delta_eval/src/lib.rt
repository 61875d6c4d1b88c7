//! Standing queries: answers that are kept as the graph changes.
#![tactic(auto)]

mod afresh;
mod apply;
mod changed;
mod laws;
mod lists;
mod standing;
mod step;
mod wanted;

pub use laws::{
    answers_are_wanted, changes_lead_once, differences_lead, room_may_change, tables_may_grow,
};
pub use standing::Standing;
pub use step::Step;
pub use wanted::Wanted;
