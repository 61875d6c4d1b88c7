//! Laws of standing queries. Each function does nothing: its contract is the law.
ghost use Rattle.delta_eval.specs.Laws.{TablesMayGrow, RoomMayChange, StepsOutlastRoom, AnswersAreWanted, DifferencesLead, ChangesAreApart, ChangesLeadOnce};

/// What stands over triples stands over them as the table of terms grows.
pub fn tables_may_grow()
    ensures { TablesMayGrow }
{}

/// What stands over triples stands over them while it keeps its rows, and a step leads to the same.
pub fn room_may_change()
    ensures standing { RoomMayChange }
    ensures steps { StepsOutlastRoom }
{}

/// The answer of what stands over triples is exactly the rows that are wanted.
pub fn answers_are_wanted()
    ensures { AnswersAreWanted }
{}

/// The difference of two lists is a change of the one that leads to the other.
pub fn differences_lead()
    ensures { DifferencesLead }
{}

/// A change leads to one set of rows, and no row is both added and obsolete.
pub fn changes_lead_once()
    ensures apart { ChangesAreApart }
    ensures once { ChangesLeadOnce }
{}
