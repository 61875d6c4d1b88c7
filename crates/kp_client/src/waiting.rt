//! A confirm that is awaited, and the heads by which it is known.
ghost use Rattle.std.specs.Prelude.{◌≡◌, IfOk, None};
ghost use Rattle.kp_client.specs.Asked.{heads_for, is_awaited, transaction_number as number_of};

use crate::Awaited;
use m3_terms::{NoMemory, Text};
use ssap_items::{Heads, MessageType, Transaction};
use ssap_shape::number_text;
use std::alloc::Global;
use std::marker::Model;

/// A confirm that is awaited, with its transaction id as it is written.
#[derive(Debug, Drop)]
pub(crate) struct Waiting {
    transaction: Transaction,
    id: u64,
    text: Text,
}

impl Model for Waiting {
    ghost use Rattle.std.specs.Prelude.{◌≡◌};
    ghost use Rattle.std.specs.Fmt.{decimal};
    ghost use Rattle.kp_client.specs.declared.fault.Awaited.{Awaited};

    ghost Value = { Awaited };

    ghost view = { λ w. record { transaction = w.transaction; id = w.id } };

    ghost invariant = { λ w. w.text ≡ decimal w.id };
}

fn transaction_number(transaction: Transaction) -> u64
    ensures { result ≡ number_of transaction }
{
    match transaction {
        Transaction::Join => 0,
        Transaction::Leave => 1,
        Transaction::Insert => 2,
        Transaction::Remove => 3,
        Transaction::Update => 4,
        Transaction::Query => 5,
        Transaction::Subscribe => 6,
        Transaction::Unsubscribe => 7,
    }
}

impl Waiting {
    pub fn new(alloc: Global, transaction: Transaction, id: u64) -> Result<Waiting, NoMemory>
        ensures { IfOk result (λ waiting. waiting ≡ record { transaction = transaction; id = id }) }
    {
        let text = number_text(alloc, id)?;
        Ok(Waiting {
            transaction,
            id,
            text,
        })
    }

    pub fn awaited(&self) -> Awaited
        ensures { result ≡ self.now }
    {
        Awaited {
            transaction: self.transaction,
            id: self.id,
        }
    }

    /// The heads of its request.
    pub fn heads(&self, space: &Text, node: &Text) -> Result<Heads, NoMemory>
        ensures { IfOk result (λ heads. heads ≡ heads_for (record { space = space.now; node = node.now; made = 0; awaited = None }) self.now) }
    {
        Ok(Heads {
            message: MessageType::Request,
            transaction: self.transaction,
            transaction_id: self.text.copy()?,
            node_id: node.copy()?,
            space_id: space.copy()?,
        })
    }

    /// Whether these are the heads of its confirm.
    pub fn is_answered(&self, space: &Text, node: &Text, heads: &Heads) -> bool
        ensures { result ≡ is_awaited (heads_for (record { space = space.now; node = node.now; made = 0; awaited = None }) self.now) heads.now }
    {
        if transaction_number(heads.transaction) != transaction_number(self.transaction) {
            return false;
        }
        let told = heads.transaction_id.as_bytes();
        if told != self.text.as_bytes() {
            return false;
        }
        if heads.node_id.as_bytes() != node.as_bytes() {
            return false;
        }
        heads.space_id.as_bytes() == space.as_bytes()
    }
}
