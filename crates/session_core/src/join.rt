//! How a node joins.
ghost use Rattle.std.specs.Prelude.{◌≡◌, OnOk, OnErr};
ghost use Rattle.ssap_shape.specs.declared.request.Ask.TheVariants as asks;
ghost use Rattle.session_core.specs.Space.{with_node};
ghost use Rattle.session_core.specs.Requests.{is_over};
ghost use Rattle.session_core.specs.Ranks.{passed};

use crate::confirm::{bare, confirm_message};
use crate::space::NODE_LIMIT;
use crate::store::Store;
use m3_terms::{NoMemory, Text};
use ssap_items::Heads;
use ssap_shape::Status;
use std::alloc::Global;

impl Store {
    fn is_crowded(&self, heads: &Heads) -> bool
        ensures { result ≡ is_over self.now heads.now asks.Join }
    {
        !self.is_joined(&heads.node_id) && self.joined.len() >= NODE_LIMIT
    }

    fn admit(&mut self, node: Text) -> Result<(), NoMemory>
        ensures space { OnOk result (self.new ≡ with_node self.old node) }
        ensures err { OnErr result (self.new ≡ self.old) }
    {
        self.joined.insert(node)?;
        Ok(())
    }

    /// The node joins, unless so many are joined already.
    pub fn join(&mut self, alloc: Global, link: u32, heads: Heads) -> Result<(), NoMemory>
        ensures space { OnOk result (self.new ≡ passed self.old link heads asks.Join) }
        ensures err { OnErr result (self.new ≡ self.old) }
    {
        if self.is_crowded(&heads) {
            return self.answer(alloc, link, heads, Status::OutOfResources);
        }
        let confirm = bare(heads, Status::Success);
        let message = confirm_message(alloc, &confirm)?;
        let heads = confirm.heads;
        self.admit(heads.node_id)?;
        self.send(link, message);
        Ok(())
    }
}
