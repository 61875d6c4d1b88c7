//! The condition of a FILTER, token by token.
ghost use Rattle.std.specs.Prelude.{◌≡◌, ◌≤◌, length, if◌then◌else◌, IfOk, IfNone, OnOk};
ghost use Rattle.sparql_algebra.specs.declared.expr.Operand.TheVariants as operand;
ghost use Rattle.sparql_text.specs.Scope.{as_argument};
ghost use Rattle.sparql_text.specs.Values.{token_of};
ghost use Rattle.sparql_read.specs.Scoped.{scope_in};
ghost use Rattle.sparql_read.specs.Drafting.{as_call, bound_of, call_of_one, call_of_two, either_at, with_closed, closed_into, with_end, with_close, begun, with_begin, with_open, with_argument, with_call, with_word, with_operand_of, in_condition, blank_condition, whole_at};

use crate::draft::{Call, Condition, Latest, Level};
use crate::levels::{
    blank_level, either_at, with_and, with_operand, with_or, with_sign, with_whole,
};
use crate::terms::{Names, argument_of, only_memory};
use m3_terms::NoMemory;
use sparql_algebra::{Compare, Expr, Operand};
use sparql_text::{Lexeme, Nested, Word};
use sqlite_items::Boxed;
use std::alloc::Global;
use std::mem;

/// A condition before its first token.
pub(crate) fn blank_condition(alloc: Global) -> Condition
    ensures { result ≡ blank_condition }
{
    Condition {
        level: blank_level(),
        outer: Nested::new(alloc),
        text: false,
    }
}

/// The call that a word begins.
fn as_call(word: Word) -> Option<Call>
    ensures { result ≡ as_call word }
{
    match word {
        Word::Bound => Some(Call::Bound),
        Word::IsIri => Some(Call::IsIri),
        Word::IsUri => Some(Call::IsIri),
        Word::IsLiteral => Some(Call::IsLiteral),
        Word::SameTerm => Some(Call::SameTerm),
        Word::Contains => Some(Call::Contains),
        Word::StrStarts => Some(Call::StartsWith),
        _ => None,
    }
}

/// BOUND of what should be a variable.
fn bound_of(operand: Operand) -> Expr
    ensures { result ≡ bound_of operand }
{
    match operand {
        Operand::Var(var) => Expr::Bound(var),
        Operand::Is(term) => Expr::Value(Operand::Is(term)),
        Operand::Str(inner) => Expr::Value(Operand::Str(inner)),
    }
}

/// A call of one operand.
fn call_of_one(call: Call, a: Operand) -> Expr
    ensures { result ≡ call_of_one call a }
{
    match call {
        Call::Bound => bound_of(a),
        Call::IsIri => Expr::IsIri(a),
        Call::IsLiteral => Expr::IsLiteral(a),
        Call::SameTerm => Expr::Value(a),
        Call::Contains => Expr::Value(a),
        Call::StartsWith => Expr::Value(a),
    }
}

/// A call of two operands.
fn call_of_two(call: Call, a: Operand, b: Operand) -> Expr
    ensures { result ≡ call_of_two call a b }
{
    match call {
        Call::Bound => Expr::Value(a),
        Call::IsIri => Expr::Value(a),
        Call::IsLiteral => Expr::Value(a),
        Call::SameTerm => Expr::SameTerm(a, b),
        Call::Contains => Expr::Contains(a, b),
        Call::StartsWith => Expr::StartsWith(a, b),
    }
}

/// The condition of a level that is closed comes in the level around it, where there is one.
fn with_closed(alloc: Global, level: &mut Level, closed: Option<Expr>) -> Result<(), NoMemory>
    ensures { OnOk result (level.new ≡ with_closed closed level.old) }
{
    match closed {
        None => Ok(()),
        Some(e) => with_whole(alloc, level, e),
    }
}

/// A level is closed, where there is one.
fn close_level(alloc: Global, condition: &mut Condition) -> Result<(), NoMemory>
    ensures { OnOk result (condition.new ≡ closed_into (either_at condition.old.level) condition.old condition.old.outer) }
{
    match condition.outer.pop() {
        None => Ok(()),
        Some(around) => {
            condition.text = false;
            let inner = mem::replace(&mut condition.level, around);
            let closed = either_at(alloc, inner)?;
            with_closed(alloc, &mut condition.level, closed)
        }
    }
}

/// `)` comes, which ends a call or a level.
fn with_end(alloc: Global, condition: &mut Condition) -> Result<(), NoMemory>
    ensures { OnOk result (condition.new ≡ with_end condition.old condition.old.level.latest) }
{
    let latest = mem::replace(&mut condition.level.latest, Latest::Nothing);
    match latest {
        Latest::One(call, a) => with_whole(alloc, &mut condition.level, call_of_one(call, a)),
        Latest::Two(call, a, b) => with_whole(alloc, &mut condition.level, call_of_two(call, a, b)),
        other => {
            condition.level.latest = other;
            close_level(alloc, condition)
        }
    }
}

/// `)` comes, which may end STR.
fn with_close(alloc: Global, condition: &mut Condition) -> Result<(), NoMemory>
    ensures { OnOk result (condition.new ≡ with_close condition.old) }
{
    if condition.text {
        condition.text = false;
        return Ok(());
    }
    with_end(alloc, condition)
}

/// A level begins.
fn begin_level(condition: &mut Condition) -> Result<(), NoMemory>
    ensures { OnOk result (condition.new ≡ begun condition.old) }
{
    condition.text = false;
    let around = mem::replace(&mut condition.level, blank_level());
    condition.outer.push(around)
}

/// `(` comes, behind the word of a call or where a level begins.
fn with_begin(condition: &mut Condition) -> Result<(), NoMemory>
    ensures { OnOk result (condition.new ≡ with_begin condition.old condition.old.level.latest) }
{
    match condition.level.latest {
        Latest::Called(_) => Ok(()),
        _ => begin_level(condition),
    }
}

/// `(` comes, perhaps behind STR.
fn with_open(condition: &mut Condition) -> Result<(), NoMemory>
    ensures { OnOk result (condition.new ≡ with_open condition.old) }
{
    if condition.text {
        return Ok(());
    }
    with_begin(condition)
}

/// An operand, or STR of it.
fn text_if(alloc: Global, text: bool, a: Operand) -> Result<Operand, NoMemory>
    ensures { IfOk result (λ b. b ≡ (if text then operand.Str a else a)) }
{
    if text {
        Ok(Operand::Str(Boxed::new(alloc, a)?))
    } else {
        Ok(a)
    }
}

/// An argument comes, perhaps in STR.
fn with_argument(alloc: Global, condition: &mut Condition, a: Operand) -> Result<(), NoMemory>
    ensures { OnOk result (condition.new ≡ with_argument condition.old a) }
{
    let operand = text_if(alloc, condition.text, a)?;
    with_operand(alloc, &mut condition.level, operand)
}

/// The word of a call comes.
fn with_call(condition: &mut Condition, call: Option<Call>)
    ensures { condition.new ≡ with_call condition.old call }
{
    match call {
        None => {}
        Some(call) => condition.level.latest = Latest::Called(call),
    }
}

/// A word comes in a condition.
fn with_word(alloc: Global, condition: &mut Condition, word: Word) -> Result<(), NoMemory>
    ensures { OnOk result (condition.new ≡ with_word condition.old word) }
{
    match word {
        Word::OpenParen => return with_open(condition),
        Word::CloseParen => return with_close(alloc, condition),
        Word::And => return with_and(alloc, &mut condition.level),
        Word::Or => return with_or(alloc, &mut condition.level),
        Word::Not => condition.level.negated = true,
        Word::Str => condition.text = true,
        Word::Equal => with_sign(&mut condition.level, Compare::Equal),
        Word::NotEqual => with_sign(&mut condition.level, Compare::NotEqual),
        Word::Less => with_sign(&mut condition.level, Compare::Less),
        Word::Greater => with_sign(&mut condition.level, Compare::Greater),
        Word::LessEqual => with_sign(&mut condition.level, Compare::LessEqual),
        Word::GreaterEqual => with_sign(&mut condition.level, Compare::GreaterEqual),
        other => with_call(condition, as_call(other)),
    }
    Ok(())
}

/// An operand comes in a condition, where a token is one.
fn with_operand_of(
    alloc: Global,
    condition: &mut Condition,
    found: Option<Operand>,
) -> Result<(), NoMemory>
    ensures { OnOk result (condition.new ≡ with_operand_of condition.old found) }
{
    match found {
        None => Ok(()),
        Some(a) => with_argument(alloc, condition, a),
    }
}

/// A token that is no word comes in a condition.
fn with_token_of(
    alloc: Global,
    names: Names<'_>,
    condition: &mut Condition,
    lexeme: Lexeme<'_>,
) -> Result<(), NoMemory>
    requires { length names.variables.now ≤ 16 }
    ensures { OnOk result (condition.new ≡ with_operand_of condition.old (as_argument (scope_in names.entry) (token_of lexeme.entry))) }
{
    let found = only_memory(argument_of(alloc, names, lexeme))?;
    with_operand_of(alloc, condition, found)
}

/// A token comes in a condition.
pub(crate) fn in_condition(
    alloc: Global,
    names: Names<'_>,
    condition: &mut Condition,
    lexeme: Lexeme<'_>,
) -> Result<(), NoMemory>
    requires { length names.variables.now ≤ 16 }
    ensures { OnOk result (condition.new ≡ in_condition (scope_in names.entry) condition.old (token_of lexeme.entry)) }
{
    match lexeme {
        Lexeme::Fixed(word) => with_word(alloc, condition, word),
        Lexeme::Iri(_) | Lexeme::Name { .. } | Lexeme::Variable(_) | Lexeme::String(_) => {
            with_token_of(alloc, names, condition, lexeme)
        }
    }
}

/// Takes out the condition of a FILTER, where it is whole.
pub(crate) fn take_whole(condition: &mut Condition) -> Option<Expr>
    ensures value { result ≡ whole_at condition.old.outer condition.old.level.latest }
    ensures none { IfNone result (condition.new ≡ condition.old) }
{
    if !condition.outer.is_empty() {
        return None;
    }
    let latest = mem::replace(&mut condition.level.latest, Latest::Nothing);
    match latest {
        Latest::Whole(e) => Some(e),
        other => {
            condition.level.latest = other;
            None
        }
    }
}
