//! Laws of reading and writing answers, and of their differences. Each function does nothing: its contract is the law.

ghost use Rattle.answer_bodies.specs.Laws.{BodiesAreReadBack, ReadsOnce, AnswersAreSound, SoundIsFull, CausesRefuse};
ghost use Rattle.answer_bodies.specs.Laws.{DifferencesAreFolded, DifferencesFit, SidesAreInOrder, SidesAreFull, SidesAreApart};
ghost use Rattle.answer_bodies.specs.Laws.{EqualsDifferInNothing, EmptyExactlyWhereEqual, FoldedIsInOrder, FoldedKeepsForm, FoldedIsFull};
ghost use Rattle.answer_bodies.specs.Examples.{OneTriple, NoDouble, NoBlank, UnboundCell, NoUnknown};

/// A sound answer may be written, and is read back from its body.
pub fn bodies_are_read_back()
    ensures full { SoundIsFull }
    ensures back { BodiesAreReadBack }
{}

/// A body is read as at most one answer, which is sound.
pub fn answers_are_told()
    ensures once { ReadsOnce }
    ensures sound { AnswersAreSound }
{}

/// Where a cause holds, a body is read as no answer.
pub fn causes_refuse()
    ensures { CausesRefuse }
{}

/// The difference of two answers may be folded into the earlier, which gives the later. Its sides are in order, have full
/// rows where both answers do, and nothing in common.
pub fn differences_lead_on()
    ensures folded { DifferencesAreFolded }
    ensures fit { DifferencesFit }
    ensures in_order { SidesAreInOrder }
    ensures full { SidesAreFull }
    ensures apart { SidesAreApart }
{}

/// A difference is empty exactly where the answers are equal.
pub fn empty_where_equal()
    ensures equals { EqualsDifferInNothing }
    ensures exactly { EmptyExactlyWhereEqual }
{}

/// An answer into which a difference is folded stays in order, and keeps its form and full rows.
pub fn folded_stays_in_order()
    ensures in_order { FoldedIsInOrder }
    ensures form { FoldedKeepsForm }
    ensures full { FoldedIsFull }
{}

/// Small bodies: one triple, and beside it the same triple twice or with a blank node; a row with an unbound cell, and
/// beside it the same row without its column.
pub fn worked_examples()
    ensures one_triple { OneTriple }
    ensures no_double { NoDouble }
    ensures no_blank { NoBlank }
    ensures unbound_cell { UnboundCell }
    ensures no_unknown { NoUnknown }
{}
