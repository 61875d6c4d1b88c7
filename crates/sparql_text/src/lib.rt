//! Texts of queries: the tokens of a text, the grammar of the profile of SPARQL that is read, and the queries that texts
//! say.
#![tactic(auto)]

mod bytes;
mod fault;
mod fixed;
mod gap;
mod judging;
mod laws;
mod lexeme;
mod names;
mod nested;
mod next;
mod past;
mod prefixes;
mod raw;
mod readers;
mod runs;
mod stack;
mod step;
mod symbol;
mod tally;
mod token;
mod word;

pub use fault::{Limit, ReadFault};
pub use judging::{Judged, Judgement, judge};
pub use laws::{
    declarations_grow, machine_reads_queries, names_grow, said_queries_are_valid,
    tally_counts_tokens, texts_are_lexed,
};
pub use lexeme::Lexeme;
pub use names::add_name;
pub use nested::Nested;
pub use next::{Next, next_token};
pub use prefixes::{Declared, declared_iri};
pub use symbol::{Kind, Symbol};
pub use tally::{Tally, count_token};
pub use word::Word;
