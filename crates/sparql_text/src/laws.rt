//! Laws of the grammar and its machine. Each function does nothing: its contract is the law.
ghost use Rattle.sparql_text.specs.Machine.{TakesViable, EndsWhole};
ghost use Rattle.sparql_text.specs.Naming.{NamesGrow, DeclarationsGrow};
ghost use Rattle.sparql_text.specs.Validity.{SaidIsValid};
ghost use Rattle.sparql_text.specs.Tallying.{TallyCounts};
ghost use Rattle.sparql_text.specs.Lexed.{TextsAreLexed};

/// The machine takes exactly the tokens that begin a query, and ends exactly behind a whole one.
pub fn machine_reads_queries()
    ensures viable { TakesViable }
    ensures whole { EndsWhole }
{}

/// Counted one at a time, tokens have the counts that they have as a whole.
pub fn tally_counts_tokens()
    ensures { TallyCounts }
{}

/// One more token adds its name to those of the variables, or none.
pub fn names_grow()
    ensures { NamesGrow }
{}

/// Behind two others a token adds a declaration to theirs, or none.
pub fn declarations_grow()
    ensures { DeclarationsGrow }
{}

/// Each text has the tokens that the function `lexed` gives, and no others.
pub fn texts_are_lexed()
    ensures { TextsAreLexed }
{}

/// What a text says is a valid query.
pub fn said_queries_are_valid()
    ensures { SaidIsValid }
{}
