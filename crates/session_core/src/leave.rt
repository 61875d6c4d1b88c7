//! How a node leaves.
ghost use Rattle.std.specs.Prelude.{◌≡◌, OnOk, OnErr};
ghost use Rattle.ssap_shape.specs.declared.request.Ask.TheVariants as asks;
ghost use Rattle.session_core.specs.Ranks.{passed};

use crate::confirm::{bare, confirm_message};
use crate::store::Store;
use crate::telling::{Whose, end_all, prepare_ends, tell_ends};
use m3_terms::NoMemory;
use ssap_items::Heads;
use ssap_shape::Status;
use std::alloc::Global;

impl Store {
    /// The node leaves, and its subscriptions end and are told so.
    pub fn leave(&mut self, alloc: Global, link: u32, heads: Heads) -> Result<(), NoMemory>
        ensures space { OnOk result (self.new ≡ passed self.old link heads asks.Leave) }
        ensures err { OnErr result (self.new ≡ self.old) }
    {
        let confirm = bare(heads, Status::Success);
        let message = confirm_message(alloc, &confirm)?;
        let node = &confirm.heads.node_id;
        let whose = Whose::Node(node);
        prepare_ends(alloc, &self.name, &self.links, &mut self.entries, whose)?;
        let _was_joined = self.joined.remove(node);
        end_all(&mut self.entries, whose);
        self.links.send(link, message);
        tell_ends(&mut self.links, &mut self.entries);
        Ok(())
    }
}
