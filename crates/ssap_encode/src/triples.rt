ghost use Rattle.std.specs.Prelude.{◌≡◌};
ghost use Rattle.ssap_items.specs.Canon.{kind_word, typed_term, triple_spelling, triples_spelling};

use crate::elements::{Attribute, Element, ElementWith};
use crate::out::Out;
use crate::spell::{Each, Spell, in_order};
use crate::text::Escaped;
use ssap_items::{Kind, RawTerm, RawTriple, RawTriples};

/// The word of a kind of term.
#[tactic(auto, unfolding(ssap_items::specs::Canon::kind_word))]
pub fn word_of(kind: Kind) -> &'static [u8]
    ensures { result.now ≡ kind_word kind }
{
    match kind {
        Kind::Uri => b"uri",
        Kind::Literal => b"literal",
        Kind::Bnode => b"bnode",
    }
}

/// A subject or an object, with its kind as the attribute `type`: its tag and the term.
#[derive(Drop)]
struct Typed<'a>(&'a [u8], &'a RawTerm);

impl Spell for Typed<'_> {
    ghost spelling = { λ s. typed_term s.0.now s.1.now };

    #[tactic(auto, unfolding(ssap_items::specs::Canon::typed_term))]
    fn put<O: Out>(&self, out: &mut O) -> Result<(), O::Fault> {
        let kind = Attribute(b"type", word_of(self.1.kind));
        ElementWith(self.0, kind, Escaped(self.1.text.as_bytes())).put(out)
    }
}

impl Spell for RawTriple {
    ghost spelling = { triple_spelling };

    #[tactic(auto, unfolding(ssap_items::specs::Canon::triple_spelling))]
    fn put<O: Out>(&self, out: &mut O) -> Result<(), O::Fault> {
        let subject = Typed(b"subject", &self.subject);
        let predicate = Element(b"predicate", Escaped(self.predicate.as_bytes()));
        let object = Typed(b"object", &self.object);
        Element(b"triple", in_order!(subject, predicate, object)).put(out)
    }
}

impl Spell for RawTriples {
    ghost spelling = { triples_spelling };

    #[tactic(auto, unfolding(ssap_items::specs::Canon::triples_spelling))]
    fn put<O: Out>(&self, out: &mut O) -> Result<(), O::Fault> {
        Element(b"triple_list", Each(self.as_slice())).put(out)
    }
}
