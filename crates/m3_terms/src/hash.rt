//! How texts and terms are hashed: equal ones alike, the bytes of a text in one write.
ghost use Rattle.m3_terms.specs.Hashed.{text_fed, term_fed, text_alike, term_alike};

use crate::{Term, Text};
use std::hash::{Hash, Hasher};

impl Hash for Text {
    ghost hash_input = { text_fed };

    ghost respects_eq = { text_alike };

    fn hash<H: Hasher>(&self, state: &mut H) {
        state.write(self.as_bytes());
        state.write_u8(0xFF);
    }
}

impl Hash for Term {
    ghost hash_input = { term_fed };

    ghost respects_eq = { term_alike };

    fn hash<H: Hasher>(&self, state: &mut H) {
        match self {
            Term::Uri(text) => {
                state.write_u8(0);
                text.hash(state);
            }
            Term::Literal(text) => {
                state.write_u8(1);
                text.hash(state);
            }
        }
    }
}
