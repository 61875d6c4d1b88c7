//! Whether the tokens of a text are a query, and where the first fault stands.
ghost use Rattle.std.specs.Prelude.{List, ℕ, IfOk};
ghost use Rattle.sparql_text.specs.Judging.{IsJudged, IsJudgedSo};
ghost use Rattle.sparql_text.specs.Naming.{texts, declarations};

use crate::lexeme::kind_of;
use crate::next::{Next, next_token};
use crate::past::Past;
use crate::stack::Stack;
use crate::{Declared, Limit};
use m3_terms::NoMemory;
use std::alloc::Global;

/// What the tokens of a text come to.
#[derive(Clone, Copy, Debug, PartialEq, Eq)]
pub enum Judged {
    /// They are a query, and none of them faults. Whether it has the word DISTINCT.
    Fine { distinct: bool },
    /// At this byte stands a token that continues no query or whose prefix is not declared, or no token, or the end of a
    /// text that is no whole query.
    NotInProfile { place: usize },
    /// At this byte stands a token that continues a query and passes a limit.
    OverLimit { which: Limit, place: usize },
}

/// What the tokens of a text come to, with the names of its distinct variables, in the order of first occurrence, and its
/// declarations; where a token faults, those before it.
#[derive(Drop)]
pub struct Judgement<'a> {
    pub judged: Judged,
    pub variables: Vec<&'a [u8]>,
    pub declared: Vec<Declared<'a>>,
}

/// What the tokens come to, with what was kept of them.
fn told(judged: Judged, past: Past<'_>) -> Judgement<'_>
    ensures { (text : List ℕ) → IsJudgedSo text (texts past.entry.names.items) (declarations past.entry.declared.items) judged → IsJudged text result }
{
    let Past {
        names,
        declared,
        ..
    } = past;
    Judgement {
        judged,
        variables: names,
        declared,
    }
}

/// Judges the tokens of a text, up to the first that faults. Beside the text it keeps the symbols that are to come, the
/// variables and the declarations.
pub fn judge(alloc: Global, text: &[u8]) -> Result<Judgement<'_>, NoMemory>
    ensures { IfOk result (IsJudged text.now) }
{
    let mut stack = Stack::query(alloc)?;
    let mut past = Past::none(alloc);
    let mut left = text;
    'tokens: loop {
        match next_token(text.len(), left) {
            Next::Token {
                lexeme,
                place,
                rest,
            } => {
                let taken = stack.take(kind_of(lexeme))?;
                if !taken || past.is_undeclared(lexeme) {
                    return Ok(told(Judged::NotInProfile { place }, past));
                }
                let term = past.term_len(lexeme);
                past.add(lexeme)?;
                if let Some(which) = past.passed(term) {
                    return Ok(told(Judged::OverLimit { which, place }, past));
                }
                left = rest;
            }
            Next::End => {
                if !stack.is_empty() {
                    return Ok(told(Judged::NotInProfile { place: text.len() }, past));
                }
                let distinct = past.form.is_distinct();
                return Ok(told(Judged::Fine { distinct }, past));
            }
            Next::NoToken { place } => return Ok(told(Judged::NotInProfile { place }, past)),
        }
    }
}
