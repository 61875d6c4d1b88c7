ghost use Rattle.sparql_text.specs.Stepping.{IsKindOf};

use crate::{Kind, Word};

/// A token as it stands in a text.
#[derive(Clone, Copy, Debug)]
pub enum Lexeme<'a> {
    /// An IRI without its angle brackets.
    Iri(&'a [u8]),
    /// A prefixed name.
    Name { prefix: &'a [u8], local: &'a [u8] },
    /// A variable without its mark.
    Variable(&'a [u8]),
    /// What stands between the quotes of a string, with its escapes.
    String(&'a [u8]),
    /// A sign or a keyword.
    Fixed(Word),
}

/// What the grammar sees of a token.
pub(crate) fn kind_of(lexeme: Lexeme<'_>) -> Kind
    ensures { IsKindOf lexeme.entry result }
{
    match lexeme {
        Lexeme::Iri(_) => Kind::Iri,
        Lexeme::Name { local, .. } => {
            if local.is_empty() {
                Kind::Bare
            } else {
                Kind::Name
            }
        }
        Lexeme::Variable(_) => Kind::Variable,
        Lexeme::String(_) => Kind::String,
        Lexeme::Fixed(word) => Kind::Fixed(word),
    }
}
