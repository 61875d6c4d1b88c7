ghost use Rattle.ssap_items.specs.Canon.{message_word, transaction_word, heads_spelling, body_spelling, encoding_spelling, parameter_spelling, canonical};

use crate::elements::{Attribute, Element, ElementWith};
use crate::out::Out;
use crate::spell::{Each, Spell, in_order};
use crate::text::Escaped;
use m3_terms::Text;
use ssap_items::{Body, Envelope, Heads, MessageType, Param, Transaction};

impl Spell for MessageType {
    ghost spelling = { message_word };

    #[tactic(auto, unfolding(ssap_items::specs::Canon::message_word))]
    fn put<O: Out>(&self, out: &mut O) -> Result<(), O::Fault> {
        match self {
            MessageType::Request => out.put(b"REQUEST"),
            MessageType::Confirm => out.put(b"CONFIRM"),
            MessageType::Indication => out.put(b"INDICATION"),
        }
    }
}

impl Spell for Transaction {
    ghost spelling = { transaction_word };

    #[tactic(auto, unfolding(ssap_items::specs::Canon::transaction_word))]
    fn put<O: Out>(&self, out: &mut O) -> Result<(), O::Fault> {
        match self {
            Transaction::Join => out.put(b"JOIN"),
            Transaction::Leave => out.put(b"LEAVE"),
            Transaction::Insert => out.put(b"INSERT"),
            Transaction::Remove => out.put(b"REMOVE"),
            Transaction::Update => out.put(b"UPDATE"),
            Transaction::Query => out.put(b"QUERY"),
            Transaction::Subscribe => out.put(b"SUBSCRIBE"),
            Transaction::Unsubscribe => out.put(b"UNSUBSCRIBE"),
        }
    }
}

impl Spell for Heads {
    ghost spelling = { heads_spelling };

    #[tactic(auto, unfolding(ssap_items::specs::Canon::heads_spelling))]
    fn put<O: Out>(&self, out: &mut O) -> Result<(), O::Fault> {
        let message = Element(b"message_type", self.message);
        let transaction = Element(b"transaction_type", self.transaction);
        let id = Element(b"transaction_id", Escaped(self.transaction_id.as_bytes()));
        let node = Element(b"node_id", Escaped(self.node_id.as_bytes()));
        let space = Element(b"space_id", Escaped(self.space_id.as_bytes()));
        in_order!(message, transaction, id, node, space).put(out)
    }
}

/// The content of a parameter.
impl Spell for Body {
    ghost spelling = { body_spelling };

    #[tactic(auto, unfolding(ssap_items::specs::Canon::body_spelling))]
    fn put<O: Out>(&self, out: &mut O) -> Result<(), O::Fault> {
        match self {
            Body::Text(text) => Escaped(text.as_bytes()).put(out),
            Body::Triples(triples) => triples.put(out),
            Body::Table(table) => table.put(out),
        }
    }
}

/// The encoding of a parameter, where it has one.
#[derive(Drop)]
struct Encoding<'a>(&'a Option<Text>);

impl Spell for Encoding<'_> {
    ghost spelling = { λ s. encoding_spelling s.0.now };

    #[tactic(auto, unfolding(ssap_items::specs::Canon::encoding_spelling))]
    fn put<O: Out>(&self, out: &mut O) -> Result<(), O::Fault> {
        match self.0 {
            None => Ok(()),
            Some(encoding) => Attribute(b"encoding", encoding.as_bytes()).put(out),
        }
    }
}

impl Spell for Param {
    ghost spelling = { parameter_spelling };

    #[tactic(auto, unfolding(ssap_items::specs::Canon::parameter_spelling))]
    fn put<O: Out>(&self, out: &mut O) -> Result<(), O::Fault> {
        let name = Attribute(b"name", self.name.as_bytes());
        let attributes = in_order!(name, Encoding(&self.encoding));
        ElementWith(b"parameter", attributes, &self.body).put(out)
    }
}

impl Spell for Envelope {
    ghost spelling = { canonical };

    #[tactic(auto, unfolding(ssap_items::specs::Canon::canonical))]
    fn put<O: Out>(&self, out: &mut O) -> Result<(), O::Fault> {
        let params = Each(self.params.as_slice());
        Element(b"SSAP_message", in_order!(&self.heads, params)).put(out)
    }
}
