ghost use Rattle.ssap_items.specs.Canon.{variable_spelling, binding_spelling, result_spelling, table_spelling};

use crate::elements::{Attribute, Element, ElementWith};
use crate::out::Out;
use crate::spell::{Each, Raw, Spell, in_order};
use crate::text::Escaped;
use crate::triples::word_of;
use m3_terms::Text;
use ssap_items::{RawCell, RawRow, RawTable};

/// A column, as an element without content.
impl Spell for Text {
    ghost spelling = { variable_spelling };

    #[tactic(auto, unfolding(ssap_items::specs::Canon::variable_spelling))]
    fn put<O: Out>(&self, out: &mut O) -> Result<(), O::Fault> {
        let name = Attribute(b"name", self.as_bytes());
        in_order!(Raw(b"<variable"), name, Raw(b"/>")).put(out)
    }
}

/// A bound cell.
impl Spell for RawCell {
    ghost spelling = { binding_spelling };

    #[tactic(auto, unfolding(ssap_items::specs::Canon::binding_spelling))]
    fn put<O: Out>(&self, out: &mut O) -> Result<(), O::Fault> {
        let name = Attribute(b"name", self.name.as_bytes());
        let text = Escaped(self.value.text.as_bytes());
        let value = Element(word_of(self.value.kind), text);
        ElementWith(b"binding", name, value).put(out)
    }
}

impl Spell for RawRow {
    ghost spelling = { result_spelling };

    #[tactic(auto, unfolding(ssap_items::specs::Canon::result_spelling))]
    fn put<O: Out>(&self, out: &mut O) -> Result<(), O::Fault> {
        Element(b"result", Each(self.as_slice())).put(out)
    }
}

impl Spell for RawTable {
    ghost spelling = { table_spelling };

    #[tactic(auto, unfolding(ssap_items::specs::Canon::table_spelling))]
    fn put<O: Out>(&self, out: &mut O) -> Result<(), O::Fault> {
        let namespace = Attribute(b"xmlns", b"http://www.w3.org/2005/sparql-results#");
        let head = Element(b"head", Each(self.columns.as_slice()));
        let results = Element(b"results", Each(self.rows.as_slice()));
        ElementWith(b"sparql", namespace, in_order!(head, results)).put(out)
    }
}
