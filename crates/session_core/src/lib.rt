//! The space: who joined, the links, and the facts that are shared.
#![tactic(auto)]

mod asking;
mod call;
mod confirm;
mod entry;
mod facts;
mod join;
mod laws;
mod leave;
mod machine;
mod numbers;
mod query;
mod ranks;
mod ring;
mod space;
mod store;
mod subscribing;
mod telling;
mod texts;
mod update;
mod watch;

pub use call::{Call, Reply};
pub use laws::{
    answers_are_followed, changes_are_sent, messages_stay_in_order, opened_links_stay,
    other_links_stay, runs_stay_in_order, taken_is_a_prefix_of_sent, updates_make_the_graph,
    updates_remove_first,
};
pub use link_table::LinkState;
pub use ring::Ring;
pub use space::{CONFIRM_LIMIT, Core, NODE_LIMIT, TERMS_LIMIT, TRIPLE_LIMIT};
pub use subscribing::SUBSCRIPTION_LIMIT;
