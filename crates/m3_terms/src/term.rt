ghost use Rattle.std.specs.Prelude.{◌≡◌, IfOk, IfErr, IsTrue, ◌↔◌};
ghost use Rattle.m3_terms.specs.Term.{IsUriText, IsLiteralText, UriFault, LiteralFault, IsUri};
ghost use Rattle.m3_terms.specs.declared.term.TermFault.TheVariants.{NoMemory};

use crate::Text;
use std::alloc::{AllocError, AllocFailed, Global};
use thiserror::Error;

/// The most bytes that a term's text may have.
pub const TERM_LIMIT: usize = 4096;

/// A term: a uri or a literal, each with its text.
#[derive(Debug, Drop)]
pub enum Term {
    Uri(Text),
    Literal(Text),
}

/// Why bytes are no term.
#[derive(Debug, Drop, Error)]
pub enum TermFault {
    /// A uri has at least one byte.
    #[error("a uri without a byte")]
    Empty,
    /// A term's text has at most 4,096 bytes.
    #[error("a term of {length} bytes")]
    TooLong { length: usize },
    /// The bytes before `place` are the longest prefix made of whole allowed characters.
    #[error("no allowed character at byte {place}")]
    NotText { place: usize },
    /// Out of memory.
    #[error("out of memory")]
    NoMemory,
}

impl From<AllocError> for TermFault {
    ghost from_gives = { λ _ fault. fault ≡ NoMemory };

    fn from(_refused: AllocError) -> TermFault {
        TermFault::NoMemory
    }
}

impl<T: Drop> From<AllocFailed<T>> for TermFault {
    ghost from_gives = { λ _ fault. fault ≡ NoMemory };

    fn from(_refused: AllocFailed<T>) -> TermFault {
        TermFault::NoMemory
    }
}

impl Term {
    /// The uri with this text. The faults are tried in the order `Empty`, `TooLong`, `NotText`.
    pub fn uri(alloc: Global, bytes: &[u8]) -> Result<Term, TermFault>
        ensures ok { IfOk result (λ term. (term ≡ Term.Uri bytes.now) × IsUriText bytes.now) }
        ensures fault { IfErr result (UriFault bytes.now) }
    {
        if bytes.is_empty() {
            return Err(TermFault::Empty);
        }
        Ok(Term::Uri(Term::text(alloc, bytes)?))
    }

    /// The literal with this text. The faults are tried in the order `TooLong`, `NotText`.
    pub fn literal(alloc: Global, bytes: &[u8]) -> Result<Term, TermFault>
        ensures ok { IfOk result (λ term. (term ≡ Term.Literal bytes.now) × IsLiteralText bytes.now) }
        ensures fault { IfErr result (LiteralFault bytes.now) }
    {
        Ok(Term::Literal(Term::text(alloc, bytes)?))
    }

    fn text(alloc: Global, bytes: &[u8]) -> Result<Text, TermFault>
        ensures ok { IfOk result (λ text. (text ≡ bytes.now) × IsLiteralText bytes.now) }
        ensures fault { IfErr result (LiteralFault bytes.now) }
    {
        if bytes.len() > TERM_LIMIT {
            return Err(TermFault::TooLong {
                length: bytes.len(),
            });
        }
        Text::read(alloc, bytes)
    }

    /// Whether the term is a uri.
    pub fn is_uri(&self) -> bool
        ensures { IsTrue result ↔ IsUri self.now }
    {
        match self {
            Term::Uri(_) => true,
            Term::Literal(_) => false,
        }
    }

    /// An equal term, in memory of its own.
    pub fn copy(&self) -> Result<Term, crate::NoMemory>
        ensures { IfOk result (λ term. term ≡ self.now) }
    {
        match self {
            Term::Uri(text) => Ok(Term::Uri(text.copy()?)),
            Term::Literal(text) => Ok(Term::Literal(text.copy()?)),
        }
    }
}
