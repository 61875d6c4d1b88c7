//! Laws of readings. Each function does nothing: its contract is the law.
ghost use Rattle.sparql_read.specs.Drafting.{QueriesAreDrafted};
ghost use Rattle.sparql_read.specs.Reading.{ReadingIsExact};

/// What a text comes to, which is computed, is exactly the query that it says, or why it says none; so it says at most one.
pub fn readings_are_exact()
    ensures { ReadingIsExact }
{}

/// The tokens of a query make it, and it alone.
pub fn queries_are_drafted()
    ensures { QueriesAreDrafted }
{}
