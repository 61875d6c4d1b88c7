//! Runs of bytes of one kind.
ghost use Rattle.std.specs.Prelude.{◌≡◌, ◌≤◌, ◌≢◌, ◌∷◌, ◌++◌, ℕ, List, length, take, true, false, IfSome, IfNone};
ghost use Rattle.std.specs.List.{list_all, prefix_len};
ghost use Rattle.sparql_text.specs.Tokens.{is_prefix, is_prefix_byte, ends_in_dot};
ghost use Rattle.sparql_text.specs.Cutting.{is_of, IsRun, IsLongestLocal};

use crate::bytes::{
    is_iri_byte, is_letter, is_local_byte, is_local_first, is_name_byte, is_prefix_byte,
};

/// What stands in a run.
#[derive(Clone, Copy)]
pub(crate) enum Class {
    /// The bytes of a variable's name.
    Variable,
    /// The bytes of an IRI.
    Iri,
    /// The bytes of a prefix.
    Prefix,
    /// The bytes of a local part.
    Local,
}

impl Class {
    /// Whether a byte is of this class.
    fn holds(self, byte: u8) -> bool
        ensures { result ≡ is_of self byte }
    {
        match self {
            Class::Variable => is_name_byte(byte),
            Class::Iri => is_iri_byte(byte),
            Class::Prefix => is_prefix_byte(byte),
            Class::Local => is_local_byte(byte),
        }
    }

    /// How many bytes of this class stand at the start.
    fn run_len(self, bytes: &[u8]) -> usize
        ensures { result ≡ prefix_len (is_of self) bytes.now }
    {
        let run = bytes.iter().take_while(|byte| self.holds(**byte));
        run.count()
    }
}

/// The bytes of a class at the start, and those behind them.
pub(crate) fn run(class: Class, bytes: &[u8]) -> (&[u8], &[u8])
    ensures { IsRun (is_of class) bytes.now result.0.now result.1.now }
{
    bytes.split_at(class.run_len(bytes))
}

/// The bytes behind this one at the start.
pub(crate) fn behind(byte: u8, bytes: &[u8]) -> Option<&[u8]>
    ensures found { IfSome result (λ rest. bytes.now ≡ byte ∷ rest.now) }
    ensures none { IfNone result ((rest : List ℕ) → bytes.now ≢ byte ∷ rest) }
{
    match bytes.split_first() {
        Some((first, rest)) => { if *first == byte { Some(rest) } else { None } }
        None => None,
    }
}

/// Whether the last byte is a dot.
fn ends_in_dot(bytes: &[u8]) -> bool
    ensures { result ≡ ends_in_dot bytes.now }
{
    match bytes.split_last() {
        Some((last, _)) => *last == b'.',
        None => false,
    }
}

/// How many bytes there are before the dots at the end.
fn undotted_len(bytes: &[u8]) -> usize
    ensures within { result ≤ length bytes.now }
    ensures undotted { ends_in_dot (take result bytes.now) ≡ false }
    ensures longest { (n : ℕ) → n ≤ length bytes.now → ends_in_dot (take n bytes.now) ≡ false → n ≤ result }
{
    let mut count = bytes.len();
    'dots: while ends_in_dot(&bytes[..count]) {
        count -= 1;
    }
    count
}

/// Whether bytes that may each stand in a prefix are one.
pub(crate) fn is_prefix(bytes: &[u8]) -> bool
    requires { list_all is_prefix_byte bytes.now ≡ true }
    ensures { result ≡ is_prefix bytes.now }
{
    match bytes.split_first() {
        Some((first, others)) => is_letter(*first) && !ends_in_dot(others),
        None => true,
    }
}

/// The longest local part at the start, and the bytes behind it.
pub(crate) fn split_local(bytes: &[u8]) -> (&[u8], &[u8])
    ensures { IsLongestLocal bytes.now result.0.now result.1.now }
{
    let Some((first, others)) = bytes.split_first() else {
        return bytes.split_at(0);
    };
    if !is_local_first(*first) {
        return bytes.split_at(0);
    }
    let (inner, _) = run(Class::Local, others);
    bytes.split_at(1 + undotted_len(inner))
}
