//! The conditions behind a `(`, token by token.
ghost use Rattle.std.specs.Prelude.{◌≡◌, Some, if◌then◌else◌, IfOk, OnOk};
ghost use Rattle.sparql_algebra.specs.declared.expr.Expr.TheVariants as expr;
ghost use Rattle.sparql_read.specs.Drafting.{and_of, or_of, condition_at, both_at, either_at, blank_level, with_whole, with_value, in_call, with_operand, with_sign, with_and, with_or};

use crate::draft::{Latest, Level};
use m3_terms::NoMemory;
use sparql_algebra::{Compare, Expr, Operand};
use sqlite_items::Boxed;
use std::alloc::Global;
use std::mem;

/// A level before its first token.
pub(crate) fn blank_level() -> Level
    ensures { result ≡ blank_level }
{
    Level {
        either: None,
        both: None,
        negated: false,
        latest: Latest::Nothing,
    }
}

/// Two conditions joined by `&&`, where both are there.
pub(crate) fn and_of(
    alloc: Global,
    first: Option<Expr>,
    second: Option<Expr>,
) -> Result<Option<Expr>, NoMemory>
    ensures { IfOk result (λ joined. joined ≡ and_of first second) }
{
    match first {
        None => Ok(second),
        Some(a) => match second {
            None => Ok(Some(a)),
            Some(b) => Ok(Some(Expr::And(Boxed::new(alloc, a)?, Boxed::new(alloc, b)?))),
        },
    }
}

/// Two conditions joined by `||`, where both are there.
fn or_of(alloc: Global, first: Option<Expr>, second: Option<Expr>) -> Result<Option<Expr>, NoMemory>
    ensures { IfOk result (λ joined. joined ≡ or_of first second) }
{
    match first {
        None => Ok(second),
        Some(a) => match second {
            None => Ok(Some(a)),
            Some(b) => Ok(Some(Expr::Or(Boxed::new(alloc, a)?, Boxed::new(alloc, b)?))),
        },
    }
}

/// The condition that stands last, where it is whole.
fn condition_at(latest: Latest) -> Option<Expr>
    ensures { result ≡ condition_at latest }
{
    match latest {
        Latest::Alone(a) => Some(Expr::Value(a)),
        Latest::Whole(e) => Some(e),
        Latest::Nothing => None,
        Latest::Compared(_, _) => None,
        Latest::Called(_) => None,
        Latest::One(_, _) => None,
        Latest::Two(_, _, _) => None,
    }
}

/// The conditions of a level, joined.
pub(crate) fn either_at(alloc: Global, level: Level) -> Result<Option<Expr>, NoMemory>
    ensures { IfOk result (λ joined. joined ≡ either_at level) }
{
    let Level {
        either,
        both,
        negated: _,
        latest,
    } = level;
    let last = and_of(alloc, both, condition_at(latest))?;
    or_of(alloc, either, last)
}

/// A condition, or its negation.
fn negated_if(alloc: Global, negated: bool, condition: Expr) -> Result<Expr, NoMemory>
    ensures { IfOk result (λ e. e ≡ (if negated then expr.Not condition else condition)) }
{
    if negated {
        Ok(Expr::Not(Boxed::new(alloc, condition)?))
    } else {
        Ok(condition)
    }
}

/// A whole condition comes last, behind `!` its negation.
pub(crate) fn with_whole(alloc: Global, level: &mut Level, condition: Expr) -> Result<(), NoMemory>
    ensures { OnOk result (level.new ≡ with_whole level.old condition) }
{
    let whole = negated_if(alloc, level.negated, condition)?;
    level.negated = false;
    level.latest = Latest::Whole(whole);
    Ok(())
}

/// An operand that is no argument and not compared comes last.
fn with_value(alloc: Global, level: &mut Level, operand: Operand) -> Result<(), NoMemory>
    ensures { OnOk result (level.new ≡ with_value level.old operand) }
{
    if level.negated {
        return with_whole(alloc, level, Expr::Value(operand));
    }
    level.latest = Latest::Alone(operand);
    Ok(())
}

/// `&&` comes.
pub(crate) fn with_and(alloc: Global, level: &mut Level) -> Result<(), NoMemory>
    ensures { OnOk result (level.new ≡ with_and level.old) }
{
    let latest = mem::replace(&mut level.latest, Latest::Nothing);
    level.negated = false;
    level.both = and_of(alloc, level.both.take(), condition_at(latest))?;
    Ok(())
}

/// `||` comes.
pub(crate) fn with_or(alloc: Global, level: &mut Level) -> Result<(), NoMemory>
    ensures { OnOk result (level.new ≡ with_or level.old) }
{
    with_and(alloc, level)?;
    level.either = or_of(alloc, level.either.take(), level.both.take())?;
    Ok(())
}

/// What stands last in a condition where an operand of a call comes.
fn in_call(latest: Latest, operand: Operand) -> Latest
    ensures { result ≡ in_call latest operand }
{
    match latest {
        Latest::Called(call) => Latest::One(call, operand),
        Latest::One(call, a) => Latest::Two(call, a, operand),
        other => other,
    }
}

/// An operand comes.
pub(crate) fn with_operand(
    alloc: Global,
    level: &mut Level,
    operand: Operand,
) -> Result<(), NoMemory>
    ensures { OnOk result (level.new ≡ with_operand level.old level.old.latest operand) }
{
    let latest = mem::replace(&mut level.latest, Latest::Nothing);
    match latest {
        Latest::Nothing => with_value(alloc, level, operand),
        Latest::Compared(a, sign) => with_whole(alloc, level, Expr::Compare(sign, a, operand)),
        other => {
            level.latest = in_call(other, operand);
            Ok(())
        }
    }
}

/// A sign comes.
pub(crate) fn with_sign(level: &mut Level, sign: Compare)
    ensures { level.new ≡ with_sign level.old level.old.latest sign }
{
    let latest = mem::replace(&mut level.latest, Latest::Nothing);
    level.latest = match latest {
        Latest::Alone(a) => Latest::Compared(a, sign),
        other => other,
    };
}
