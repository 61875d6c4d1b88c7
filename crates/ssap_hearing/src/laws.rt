//! Laws of what is heard on a link. The function does nothing: its contract is the laws.

ghost use Rattle.ssap_hearing.specs.Hearing.{FrontsExist, FrontsOnce};

/// All bytes have a longest prefix that the grammar and the limit of messages let through, with its messages, and a stop where
/// another byte follows; and only one.
pub fn links_are_heard_once()
    ensures exist { FrontsExist }
    ensures once { FrontsOnce }
{}
