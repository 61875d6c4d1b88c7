use m3_terms::Text;

/// What a message is: a processor's request, the confirm of one, or an indication that no request asks for.
#[derive(Clone, Copy, Debug, PartialEq, Eq)]
pub enum MessageType {
    Request,
    Confirm,
    Indication,
}

/// The eight transactions of SSAP.
#[derive(Clone, Copy, Debug, PartialEq, Eq)]
pub enum Transaction {
    Join,
    Leave,
    Insert,
    Remove,
    Update,
    Query,
    Subscribe,
    Unsubscribe,
}

/// The five heads, each of which stands exactly once in a message.
#[derive(Debug, Drop)]
pub struct Heads {
    pub message: MessageType,
    pub transaction: Transaction,
    pub transaction_id: Text,
    pub node_id: Text,
    pub space_id: Text,
}
