ghost use Rattle.std.specs.Prelude.{◌≡◌, List, ℕ};
ghost use Rattle.sib_script.specs.declared.entry.Entry.{Entry};
ghost use Rattle.session_core.specs.Runs.{run};
ghost use Rattle.sib_replay.specs.Followed.{SubscriptionsAreFollowed, ChangesAreWritten};
ghost use Rattle.sib_replay.specs.Lines.{MessagesAreSent};
ghost use Rattle.sib_replay.specs.Output.{Event, AreTaken, IsOutput, space_after, history};

/// What the entries of a script are taken as is told by them, and what is written for an input by its bytes.
pub fn outputs_are_told()
    ensures events { (name : List ℕ) (entries : List Entry) (a b : List Event) → AreTaken name entries a → AreTaken name entries b → a ≡ b }
    ensures output { (name input a b : List ℕ) → IsOutput name input a → IsOutput name input b → a ≡ b }
{}

/// The entries of a script are taken as some events, and some output is written for the bytes of each input.
pub fn outputs_exist()
    ensures events { (name : List ℕ) (entries : List Entry) → (events : List Event) × AreTaken name entries events }
    ensures output { (name input : List ℕ) → (output : List ℕ) × IsOutput name input output }
{}

/// The space behind events is the space behind their calls.
pub fn spaces_are_run()
    ensures { (name : List ℕ) (events : List Event) → space_after name events ≡ run name (history name events) }
{}

/// The answers to events are lines, and the messages among them are, for each link, those that the history of the events
/// sent on it, in order. No event loses a link, so no message that was sent is dropped before it is written.
pub fn messages_are_written_as_sent()
    ensures { MessagesAreSent }
{}

/// Whatever the events, each subscription that lives behind them was followed through the history of their calls: it began
/// once, its changes are numbered 1, 2, 3 and so on, none is empty, none has a row both added and obsolete, and folded over its
/// first answer they give its answer over the graph. And they are written: among the messages that the answers to the events
/// have on its link they stand as indications, in their order.
pub fn subscriptions_are_followed()
    ensures followed { SubscriptionsAreFollowed }
    ensures written { ChangesAreWritten }
{}
