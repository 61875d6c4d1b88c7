ghost use Rattle.std.specs.Prelude.{◌≡◌, ◌<◌, ◌+◌, ◌++◌, ◌∷◌, [], ◌^◌, length, IfOk};

use m3_terms::{Bytes, NoMemory};
use std::alloc::Global;
use std::collections::LinkedList;
use std::marker::Model;

/// A message that is ready to be sent: to send it takes no memory.
#[derive(Drop)]
pub struct Message {
    /// The one node of a queue, which holds the bytes.
    node: LinkedList<Bytes>,
}

impl Model for Message {
    ghost use Rattle.std.specs.Prelude.{ℕ, ◌<◌, length, List, flat_map, ◌≡◌, ◌∷◌, []};

    ghost Value = { List ℕ };

    ghost view = { λ m. flat_map (λ bytes. bytes) m.node };

    ghost invariant = { λ m. (m.node ≡ flat_map (λ bytes. bytes) m.node ∷ []) × (0 < length (flat_map (λ bytes. bytes) m.node)) };
}

impl Message {
    /// A message of these bytes, of which there is one at least.
    pub fn new(alloc: Global, bytes: Bytes) -> Result<Message, NoMemory>
        requires { 0 < length bytes }
        ensures { IfOk result (λ message. message ≡ bytes) }
    {
        let mut node = LinkedList::new(alloc);
        node.push_back(bytes)?;
        Ok(Message { node })
    }

    // How many bytes it has.
    pub(crate) fn len(&self) -> u64
        ensures value { result ≡ length self.now }
        ensures filled { 0 < length self.now }
    {
        match self.node.front() {
            Some(bytes) => bytes.len() as u64,
            None => 0,
        }
    }

    // Moves the node behind those of a queue, which takes no memory.
    pub(crate) fn move_to(self, pending: &mut LinkedList<Bytes>)
        requires { length pending.old + 1 < 2 ^ 63 }
        ensures { pending.new ≡ pending.old ++ self ∷ [] }
    {
        let Message { mut node } = self;
        let _moved = pending.append(&mut node);
    }
}
