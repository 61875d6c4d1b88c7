//! The law that what is printed is true. The function does nothing: its contract is the law.

ghost use Rattle.talk_laws.specs.Truth.{PrintedAnswersAreTrue};

/// Take any history of fewer than 2^64 calls in which each delivered message is what some message of texts comes to, any link of
/// it, and a talk whose requests, or the first of them, are all that was delivered on the link. Where the bytes that the client
/// read begin what was sent on the link, each answer that it printed is the query's answer over the graph behind the call that
/// caused it: its request, or the update whose indication told the change. And nothing was broken, unless the last message was cut.
pub fn printed_answers_are_true()
    ensures { PrintedAnswersAreTrue }
{}
