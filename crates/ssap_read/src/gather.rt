ghost use Rattle.std.specs.Prelude.{◌≡◌, ◌≢◌, [], Some, None, true, false, IfOk};
ghost use Rattle.ssap_read.specs.Pieces.{item_of, Gathers, Takes, Completes};

use crate::piece::Piece;
use m3_terms::{Items, NoMemory, Text};
use ssap_items::{Envelope, Heads, MessageType, Params, Transaction};
use std::alloc::Global;

/// What was gathered of a message's pieces: each header once, and the parameters in their order.
#[derive(Debug, Drop)]
pub struct Gathered {
    message: Option<MessageType>,
    transaction: Option<Transaction>,
    transaction_id: Option<Text>,
    node_id: Option<Text>,
    space_id: Option<Text>,
    params: Params,
}

/// Fills a slot. False where it is filled already; it then stays, and the value is dropped.
fn fill<T: Drop>(slot: &mut Option<T>, value: T) -> bool
    ensures filled { result ≡ true → (slot.old ≡ None) × (slot.new ≡ Some value) }
    ensures full { result ≡ false → slot.old ≢ None }
{
    if slot.is_some() {
        return false;
    }
    *slot = Some(value);
    true
}

impl Gathered {
    /// Nothing. It takes no memory.
    pub fn new(alloc: Global) -> Gathered
        ensures { Gathers [] result }
    {
        Gathered {
            message: None,
            transaction: None,
            transaction_id: None,
            node_id: None,
            space_id: None,
            params: Items::new(alloc),
        }
    }

    /// Takes one more piece. False where it is a header that was taken before.
    pub fn take(&mut self, piece: Piece) -> Result<bool, NoMemory>
        ensures { IfOk result (λ taken. Takes self.old (item_of piece) taken self.new) }
    {
        match piece {
            Piece::MessageType(value) => Ok(fill(&mut self.message, value)),
            Piece::TransactionType(value) => Ok(fill(&mut self.transaction, value)),
            Piece::TransactionId(text) => Ok(fill(&mut self.transaction_id, text)),
            Piece::NodeId(text) => Ok(fill(&mut self.node_id, text)),
            Piece::SpaceId(text) => Ok(fill(&mut self.space_id, text)),
            Piece::Parameter(param) => {
                self.params.push(param)?;
                Ok(true)
            }
        }
    }

    /// The envelope of the pieces. `None` where a header is missing.
    pub fn complete(self) -> Option<Envelope>
        ensures { Completes self result }
    {
        let heads = Heads {
            message: self.message?,
            transaction: self.transaction?,
            transaction_id: self.transaction_id?,
            node_id: self.node_id?,
            space_id: self.space_id?,
        };
        let params = self.params;
        Some(Envelope { heads, params })
    }
}
