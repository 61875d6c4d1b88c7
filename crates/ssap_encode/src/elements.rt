ghost use Rattle.ssap_items.specs.Canon.{attribute, element, element_with};

use crate::out::Out;
use crate::spell::{Nothing, Raw, Spell, in_order};
use crate::text::Escaped;

/// An attribute with the space before it: its name and its value.
#[derive(Drop)]
pub struct Attribute<'a>(pub &'a [u8], pub &'a [u8]);

impl Spell for Attribute<'_> {
    ghost spelling = { λ s. attribute s.0.now s.1.now };

    #[tactic(auto, unfolding(ssap_items::specs::Canon::attribute))]
    fn put<O: Out>(&self, out: &mut O) -> Result<(), O::Fault> {
        let value = Escaped(self.1);
        in_order!(Raw(b" "), Raw(self.0), Raw(b"=\""), value, Raw(b"\"")).put(out)
    }
}

/// An element without attributes: its tag and its content.
#[derive(Drop)]
pub struct Element<'a, C>(pub &'a [u8], pub C);

impl<C: Spell> Spell for Element<'_, C> {
    ghost spelling = { λ s. element s.0.now (C.spelling s.1) };

    #[tactic(auto, unfolding(ssap_items::specs::Canon::element))]
    fn put<O: Out>(&self, out: &mut O) -> Result<(), O::Fault> {
        ElementWith(self.0, Nothing, &self.1).put(out)
    }
}

/// An element: its tag, its attributes and its content.
#[derive(Drop)]
pub struct ElementWith<'a, A, C>(pub &'a [u8], pub A, pub C);

impl<A: Spell, C: Spell> Spell for ElementWith<'_, A, C> {
    ghost spelling = { λ s. element_with s.0.now (A.spelling s.1) (C.spelling s.2) };

    #[tactic(auto, unfolding(ssap_items::specs::Canon::element_with))]
    fn put<O: Out>(&self, out: &mut O) -> Result<(), O::Fault> {
        let ElementWith(tag, attributes, content) = self;
        let start = in_order!(Raw(b"<"), Raw(*tag), attributes, Raw(b">"));
        in_order!(start, content, Raw(b"</"), Raw(*tag), Raw(b">")).put(out)
    }
}
