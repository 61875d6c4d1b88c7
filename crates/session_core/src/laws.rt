//! Laws of graphs and of runs. Each function does nothing: its contract is the law.

ghost use Rattle.session_core.specs.Laws.{UpdatesAreExact, UpdatesKeepOrder, NameStays, NodesInOrder, TriplesInOrder, UpdatesCounted, GraphOfUpdates, SentTakenWaiting, TakenOfSent, OtherLinksStay};
ghost use Rattle.session_core.specs.Watching.{AnswersAreFollowed};
ghost use Rattle.session_core.specs.Indicated.{ChangesAreSent};
ghost use Rattle.session_core.specs.Opened.{OpenedStays, OpenedIsOpened, RepliesSuit};

/// After an update a graph has the triples that were inserted, and those that it had and that fit no removed pattern, in
/// order and each once.
pub fn updates_remove_first()
    ensures exact { UpdatesAreExact }
    ensures order { UpdatesKeepOrder }
{}

/// The name of a space stays in a run, and its nodes and triples are in order, each once.
pub fn runs_stay_in_order()
    ensures name { NameStays }
    ensures nodes { NodesInOrder }
    ensures triples { TriplesInOrder }
{}

/// A run counts its accepted updates, and its graph is what these make of none, one after another.
pub fn updates_make_the_graph()
    ensures counted { UpdatesCounted }
    ensures graph { GraphOfUpdates }
{}

/// What was sent on a link that no call loses was taken from it in the same order, and the rest waits.
pub fn messages_stay_in_order()
    ensures { SentTakenWaiting }
{}

/// On every link, lost or not, what was taken is a prefix of what was sent.
pub fn taken_is_a_prefix_of_sent()
    ensures { TakenOfSent }
{}

/// Whatever the history, each subscription that lives was followed: it began once, its changes are numbered 1, 2, 3 and so
/// on, none is empty, none has a row both added and obsolete, and folded over its first answer they give its answer over the
/// graph.
pub fn answers_are_followed()
    ensures { AnswersAreFollowed }
{}

/// Whatever the history, the changes that a subscription that lives was told were sent on its link, in their order.
pub fn changes_are_sent()
    ensures { ChangesAreSent }
{}

/// What comes on a link changes no other link but those of subscriptions.
pub fn other_links_stay()
    ensures { OtherLinksStay }
{}

/// A link that was opened stays so, whatever follows, and only replies that suit come to a call that names one.
pub fn opened_links_stay()
    ensures stays { OpenedStays }
    ensures opened { OpenedIsOpened }
    ensures suits { RepliesSuit }
{}
