//! The prefixes of a query, and the IRIs that they stand for.
ghost use Rattle.std.specs.Prelude.{◌≡◌};
ghost use Rattle.std.specs.Option.{option_map};
ghost use Rattle.sparql_text.specs.Scope.{iri_of};
ghost use Rattle.sparql_text.specs.Naming.{declarations};

/// A declaration: a prefix, and the IRI that it stands for.
#[derive(Clone, Copy, Debug)]
pub struct Declared<'a> {
    pub prefix: &'a [u8],
    pub iri: &'a [u8],
}

/// The IRI that a prefix stands for: that of its last declaration, or `None` where it is not declared.
pub fn declared_iri<'a>(declared: &[Declared<'a>], prefix: &[u8]) -> Option<&'a [u8]>
    ensures { option_map (λ iri. iri.now) result ≡ iri_of (declarations declared.now) prefix.now }
{
    let mut count = declared.len();
    'declared: while count > 0 {
        count -= 1;
        let known = declared[count];
        if known.prefix == prefix {
            return Some(known.iri);
        }
    }
    None
}
