//! What is kept of the tokens so far, by which the next one is judged.
ghost use Rattle.std.specs.Prelude.{◌≡◌, ◌++◌, ◌∷◌, [], ◌<◌, ◌^◌, ◌-◌, List, ℕ, length, unwrap_or, fold, IsTrue, ◌↔◌, OnOk};
ghost use Rattle.std.specs.Option.{option_map};
ghost use Rattle.sparql_text.specs.Tokens.{Token};
ghost use Rattle.sparql_text.specs.Cutting.{StandsFor, IsValue};
ghost use Rattle.sparql_text.specs.Scope.{name_of, iri_of};
ghost use Rattle.sparql_text.specs.Counts.{term_bytes, first_passed, passed};
ghost use Rattle.sparql_text.specs.Faults.{IsUndeclared};
ghost use Rattle.sparql_text.specs.Naming.{texts, with_name, declarations};
ghost use Rattle.sparql_text.specs.Tallying.{IsBounded};
ghost use Rattle.sparql_text.specs.Past.{IsPast, is_prefix_kind, prefix_behind, declared_by, form_behind, is_distinct};

use crate::lexeme::kind_of;
use crate::{Declared, Kind, Lexeme, Limit, Tally, Word, add_name, count_token, declared_iri};
use m3_terms::{NoMemory, TERM_LIMIT};
use std::alloc::Global;

/// The most distinct variables of a query.
const VARIABLE_LIMIT: usize = 16;
/// The most triple patterns.
const PATTERN_LIMIT: usize = 32;
/// The most words UNION and OPTIONAL.
const OPERATOR_LIMIT: usize = 16;
/// The most words FILTER and signs `&&` and `||`.
const CONDITION_LIMIT: usize = 256;
/// The most braces and parentheses that are open at once.
const NESTING_LIMIT: usize = 16;

/// What stands behind the first SELECT.
#[derive(Clone, Copy, Debug)]
pub(crate) enum Form {
    /// There is no SELECT.
    Unselected,
    /// No token.
    Selected,
    /// DISTINCT.
    Distinct,
    /// Another token.
    Plain,
}

impl Form {
    /// The form behind one more token.
    fn behind(self, kind: Kind) -> Form
        ensures { result ≡ form_behind self kind }
    {
        match self {
            Form::Unselected => {
                match kind {
                    Kind::Fixed(Word::Select) => Form::Selected,
                    _ => Form::Unselected,
                }
            }
            Form::Selected => {
                match kind {
                    Kind::Fixed(Word::Distinct) => Form::Distinct,
                    _ => Form::Plain,
                }
            }
            Form::Distinct => Form::Distinct,
            Form::Plain => Form::Plain,
        }
    }

    /// Whether DISTINCT stands behind SELECT.
    pub fn is_distinct(self) -> bool
        ensures { result ≡ is_distinct self }
    {
        match self {
            Form::Distinct => true,
            Form::Unselected | Form::Selected | Form::Plain => false,
        }
    }
}

/// Whether a token is PREFIX.
fn is_prefix_kind(kind: Kind) -> bool
    ensures { result ≡ is_prefix_kind kind }
{
    match kind {
        Kind::Fixed(Word::Prefix) => true,
        _ => false,
    }
}

/// The prefix of a prefixed name that stands behind PREFIX.
fn prefix_behind(behind_prefix: bool, lexeme: Lexeme<'_>) -> Option<&[u8]>
    ensures { (token : Token) → StandsFor lexeme.entry token → option_map (λ prefix. prefix.now) result ≡ prefix_behind behind_prefix token }
{
    match lexeme {
        Lexeme::Name { prefix, .. } => { if behind_prefix { Some(prefix) } else { None } }
        Lexeme::Iri(_) | Lexeme::Variable(_) | Lexeme::String(_) | Lexeme::Fixed(_) => None,
    }
}

/// Adds the name of a token that is a variable.
fn add_variable<'a>(names: &mut Vec<&'a [u8]>, lexeme: Lexeme<'a>) -> Result<(), NoMemory>
    ensures { OnOk result ((token : Token) → StandsFor lexeme.entry token → texts names.new.items ≡ fold with_name (texts names.old.items) (name_of token)) }
{
    match lexeme {
        Lexeme::Variable(name) => add_name(names, name),
        Lexeme::Iri(_) | Lexeme::Name { .. } | Lexeme::String(_) | Lexeme::Fixed(_) => Ok(()),
    }
}

/// Adds the declaration that an IRI makes of the prefix before it.
fn add_declaration<'a>(
    declared: &mut Vec<Declared<'a>>,
    pending: Option<&'a [u8]>,
    lexeme: Lexeme<'a>,
) -> Result<(), NoMemory>
    ensures { OnOk result ((token : Token) → StandsFor lexeme.entry token → declarations declared.new.items ≡ declarations declared.old.items ++ declared_by (option_map (λ prefix. prefix.now) pending.entry) token) }
{
    let Some(prefix) = pending else {
        return Ok(());
    };
    match lexeme {
        Lexeme::Iri(iri) => {
            declared.push(Declared { prefix, iri })?;
            Ok(())
        }
        Lexeme::Name { .. } | Lexeme::Variable(_) | Lexeme::String(_) | Lexeme::Fixed(_) => Ok(()),
    }
}

/// How many bytes the raw bytes of a string stand for: an escape counts as one.
fn value_len(raw: &[u8]) -> usize
    ensures { (value : List ℕ) → IsValue raw.now value → result ≡ length value }
{
    let mut count = 0;
    let mut escaped = false;
    let mut left = raw;
    'bytes: while let Some((byte, more)) = left.split_first() {
        escaped = *byte == b'\\' && !escaped;
        if !escaped {
            count += 1;
        }
        left = more;
    }
    count
}

/// The first of the counts that passes its limit, of so many variables, these counts of tokens, and so many bytes of a
/// term.
fn first_passed(variables: usize, tally: &Tally, term: usize) -> Option<Limit>
    ensures { result ≡ first_passed variables tally.now.patterns tally.now.operators tally.now.conditions (tally.now.opens - tally.now.closes) term }
{
    if variables > VARIABLE_LIMIT {
        Some(Limit::Variables)
    } else if tally.patterns > PATTERN_LIMIT {
        Some(Limit::Patterns)
    } else if tally.operators > OPERATOR_LIMIT {
        Some(Limit::Operators)
    } else if tally.conditions > CONDITION_LIMIT {
        Some(Limit::Conditions)
    } else if tally.opens.saturating_sub(tally.closes) > NESTING_LIMIT {
        Some(Limit::Nesting)
    } else if term > TERM_LIMIT {
        Some(Limit::Term)
    } else {
        None
    }
}

/// What is kept of the tokens of a text so far.
#[derive(Drop)]
pub(crate) struct Past<'a> {
    /// The names of their variables.
    pub names: Vec<&'a [u8]>,
    /// Their declarations.
    pub declared: Vec<Declared<'a>>,
    /// Their counts.
    tally: Tally,
    /// Whether the last of them is PREFIX.
    behind_prefix: bool,
    /// The prefix of the last of them, if it stands behind PREFIX.
    pending: Option<&'a [u8]>,
    /// What stands behind SELECT.
    pub form: Form,
}

impl<'a> Past<'a> {
    /// There was no token.
    pub fn none(alloc: Global) -> Past<'a>
        ensures { IsPast [] result }
    {
        Past {
            names: Vec::new(alloc),
            declared: Vec::new(alloc),
            tally: Tally::BLANK,
            behind_prefix: false,
            pending: None,
            form: Form::Unselected,
        }
    }

    /// Whether a token uses a prefix that is not declared.
    pub fn is_undeclared(&self, lexeme: Lexeme<'_>) -> bool
        ensures { (tokens : List Token) (token : Token) → IsPast tokens self.now → StandsFor lexeme.entry token → IsTrue result ↔ IsUndeclared tokens token }
    {
        match lexeme {
            Lexeme::Name { prefix, .. } => {
                !self.behind_prefix && declared_iri(self.declared.as_slice(), prefix).is_none()
            }
            Lexeme::Iri(_) | Lexeme::Variable(_) | Lexeme::String(_) | Lexeme::Fixed(_) => false,
        }
    }

    /// How many bytes the IRI has that a prefix stands for, none where it is not declared.
    fn prefix_len(&self, prefix: &[u8]) -> usize
        ensures value { result ≡ length (unwrap_or (iri_of (declarations self.now.declared.items) prefix.now) []) }
        ensures small { result < 2 ^ 63 }
    {
        match declared_iri(self.declared.as_slice(), prefix) {
            Some(iri) => iri.len(),
            None => 0,
        }
    }

    /// How many bytes the term has that a token stands for, none where it stands for no term.
    pub fn term_len(&self, lexeme: Lexeme<'_>) -> usize
        ensures { (tokens : List Token) (token : Token) → IsPast tokens self.now → StandsFor lexeme.entry token → result ≡ term_bytes tokens token }
    {
        match lexeme {
            Lexeme::Iri(iri) => { if self.tally.in_pattern { iri.len() } else { 0 } }
            Lexeme::Name { prefix, local } => {
                if self.tally.in_pattern {
                    self.prefix_len(prefix) + local.len()
                } else {
                    0
                }
            }
            Lexeme::String(raw) => value_len(raw),
            Lexeme::Variable(_) | Lexeme::Fixed(_) => 0,
        }
    }

    /// Adds a token.
    pub fn add(&mut self, lexeme: Lexeme<'a>) -> Result<(), NoMemory>
        requires { IsBounded self.old.tally }
        ensures { OnOk result ((tokens : List Token) (token : Token) → IsPast tokens self.old → StandsFor lexeme.entry token → IsPast (tokens ++ token ∷ []) self.new) }
    {
        add_declaration(&mut self.declared, self.pending, lexeme)?;
        add_variable(&mut self.names, lexeme)?;
        let kind = kind_of(lexeme);
        self.tally = count_token(self.tally, kind);
        self.pending = prefix_behind(self.behind_prefix, lexeme);
        self.behind_prefix = is_prefix_kind(kind);
        self.form = self.form.behind(kind);
        Ok(())
    }

    /// The first of the counts that passes its limit, where the last token stands for a term of so many bytes.
    pub fn passed(&self, term: usize) -> Option<Limit>
        ensures { (before : List Token) (token : Token) → IsPast (before ++ token ∷ []) self.now → term ≡ term_bytes before token → result ≡ passed before token }
    {
        first_passed(self.names.len(), &self.tally, term)
    }
}
