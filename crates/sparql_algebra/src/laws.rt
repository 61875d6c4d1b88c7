//! Laws of solutions, widths and answers. Each function does nothing: its contract is the law.

ghost use Rattle.sparql_algebra.specs.ListedLaws.{PatternsAreListed, SolutionsAreListed, CountIsComputed, WidthIsComputed, AnswerIsComputed};

/// The solutions that are computed of a graph pattern are exactly its solutions, each once.
pub fn solutions_are_listed()
    ensures patterns { PatternsAreListed }
    ensures all { SolutionsAreListed }
{}

/// A graph pattern has one width over a graph, the computed one.
pub fn widths_are_computed()
    ensures count { CountIsComputed }
    ensures width { WidthIsComputed }
{}

/// A query has one answer over a graph, the computed one.
pub fn answers_are_computed()
    ensures { AnswerIsComputed }
{}
