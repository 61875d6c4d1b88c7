//! Laws of trials. Each function does nothing: its contract is the law.

ghost use Rattle.replay_trial.specs.Laws.{TrialsAreTold, TrialsExist, TrialsReplayTheScript, MessagesAreCounted, FrontsTellMessages};

/// At most one output is that of a trial with so many updates.
pub fn trials_are_told()
    ensures told { TrialsAreTold }
{}

/// There is an output of a trial with so many updates.
pub fn trials_exist()
    ensures exist { TrialsExist }
{}

/// The output of a trial tells of the replay of the generated script: the counts are those of the answers that a replay of
/// the script writes, and the last line is its last line.
pub fn trials_replay_the_script()
    ensures replayed { TrialsReplayTheScript }
{}

/// The counts of lines are those of the messages on all links: the sums, over the links, of how many messages begin as a
/// confirm does, and of how many begin as an indication does.
pub fn messages_are_counted()
    ensures counted { MessagesAreCounted }
{}

/// An envelope in its canonical spelling begins as a confirm does exactly where its message type says that it is one, and so
/// for indications.
pub fn fronts_tell_messages()
    ensures fronts { FrontsTellMessages }
{}
