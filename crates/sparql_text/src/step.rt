//! What a symbol takes, and what then stands in its place.
ghost use Rattle.std.specs.Prelude.{◌≡◌, [], ◌∷◌};
ghost use Rattle.sparql_text.specs.Machine.{at_subject, at_verb, at_argument, at_element, at_content, at_dot, at_said, at_operand, at_call, at_joined, at_condition, step};
ghost use Rattle.sparql_text.specs.Stepping.{symbols, behind};

use crate::{Kind, Symbol, Word};

/// The symbols that stand in the place of one that took a token.
type Step = Option<&'static [Symbol]>;

/// What follows an operand or a call.
#[derive(Clone, Copy)]
pub(crate) enum Follows {
    Nothing,
    Joined,
    Compared,
}

/// A variable, an IRI or a prefixed name, with which these symbols follow.
fn at_subject(follows: &'static [Symbol], kind: Kind) -> Step
    ensures { symbols result ≡ at_subject follows.now kind }
{
    match kind {
        Kind::Iri | Kind::Bare | Kind::Name | Kind::Variable => Some(follows),
        Kind::String | Kind::Fixed(_) => None,
    }
}

/// A verb.
fn at_verb(kind: Kind) -> Step
    ensures { symbols result ≡ at_verb [] kind }
{
    match kind {
        Kind::Fixed(Word::A) => Some(&[]),
        _ => at_subject(&[], kind),
    }
}

/// A variable, an IRI, a prefixed name or a string, with which these symbols follow.
fn at_argument(follows: &'static [Symbol], kind: Kind) -> Step
    ensures { symbols result ≡ at_argument follows.now kind }
{
    match kind {
        Kind::String => Some(follows),
        _ => at_subject(follows, kind),
    }
}

/// An element of a group, or the group's end.
fn at_element(word: Word) -> Step
    ensures { symbols result ≡ at_element (Kind.Fixed word) }
{
    match word {
        Word::OpenBrace => Some(&[Symbol::Group, Symbol::Alts]),
        Word::Optional => Some(&[Symbol::Open, Symbol::Behind]),
        Word::Filter => Some(&[Symbol::Filter, Symbol::Behind]),
        Word::CloseBrace => Some(&[]),
        _ => None,
    }
}

/// Triple patterns, an element, or the group's end.
fn at_content(kind: Kind) -> Step
    ensures { symbols result ≡ at_content kind }
{
    match kind {
        Kind::Fixed(word) => at_element(word),
        _ => at_subject(&[Symbol::Verb, Symbol::Object, Symbol::Objects], kind),
    }
}

/// The same, or a dot before it.
fn at_dot(kind: Kind) -> Step
    ensures { symbols result ≡ at_dot kind }
{
    match kind {
        Kind::Fixed(Word::Dot) => Some(&[Symbol::Group]),
        _ => at_content(kind),
    }
}

/// Behind an object or a `;`: a further `;`, the end of the triple patterns, or what may follow them.
fn at_said(word: Word) -> Step
    ensures { symbols result ≡ at_said (Kind.Fixed word) }
{
    match word {
        Word::Semicolon => Some(&[Symbol::Said]),
        Word::Dot => Some(&[Symbol::Group]),
        _ => at_element(word),
    }
}

/// The symbols that follow alone.
fn alone(follows: Follows) -> &'static [Symbol]
    ensures { result.now ≡ behind follows }
{
    match follows {
        Follows::Nothing => &[],
        Follows::Joined => &[Symbol::Joined],
        Follows::Compared => &[Symbol::Compared],
    }
}

/// The symbols behind STR.
fn behind_str(follows: Follows) -> &'static [Symbol]
    ensures { result.now ≡ Symbol.OpenParen ∷ Symbol.Argument ∷ Symbol.CloseParen ∷ behind follows }
{
    match follows {
        Follows::Nothing => &[Symbol::OpenParen, Symbol::Argument, Symbol::CloseParen],
        Follows::Joined => &[
            Symbol::OpenParen,
            Symbol::Argument,
            Symbol::CloseParen,
            Symbol::Joined,
        ],
        Follows::Compared => &[
            Symbol::OpenParen,
            Symbol::Argument,
            Symbol::CloseParen,
            Symbol::Compared,
        ],
    }
}

/// The symbols behind BOUND.
fn behind_bound(follows: Follows) -> &'static [Symbol]
    ensures { result.now ≡ Symbol.OpenParen ∷ Symbol.Variable ∷ Symbol.CloseParen ∷ behind follows }
{
    match follows {
        Follows::Nothing => &[Symbol::OpenParen, Symbol::Variable, Symbol::CloseParen],
        Follows::Joined => &[
            Symbol::OpenParen,
            Symbol::Variable,
            Symbol::CloseParen,
            Symbol::Joined,
        ],
        Follows::Compared => &[
            Symbol::OpenParen,
            Symbol::Variable,
            Symbol::CloseParen,
            Symbol::Compared,
        ],
    }
}

/// The symbols behind the word of a test of one operand.
fn behind_test(follows: Follows) -> &'static [Symbol]
    ensures { result.now ≡ Symbol.OpenParen ∷ Symbol.Operand ∷ Symbol.CloseParen ∷ behind follows }
{
    match follows {
        Follows::Nothing => &[Symbol::OpenParen, Symbol::Operand, Symbol::CloseParen],
        Follows::Joined => &[
            Symbol::OpenParen,
            Symbol::Operand,
            Symbol::CloseParen,
            Symbol::Joined,
        ],
        Follows::Compared => &[
            Symbol::OpenParen,
            Symbol::Operand,
            Symbol::CloseParen,
            Symbol::Compared,
        ],
    }
}

/// The symbols behind the word of a test of two operands.
fn behind_relation(follows: Follows) -> &'static [Symbol]
    ensures { result.now ≡ Symbol.OpenParen ∷ Symbol.Operand ∷ Symbol.Comma ∷ Symbol.Operand ∷ Symbol.CloseParen ∷ behind follows }
{
    match follows {
        Follows::Nothing => &[
            Symbol::OpenParen,
            Symbol::Operand,
            Symbol::Comma,
            Symbol::Operand,
            Symbol::CloseParen,
        ],
        Follows::Joined => &[
            Symbol::OpenParen,
            Symbol::Operand,
            Symbol::Comma,
            Symbol::Operand,
            Symbol::CloseParen,
            Symbol::Joined,
        ],
        Follows::Compared => &[
            Symbol::OpenParen,
            Symbol::Operand,
            Symbol::Comma,
            Symbol::Operand,
            Symbol::CloseParen,
            Symbol::Compared,
        ],
    }
}

/// An operand.
fn at_operand(follows: Follows, kind: Kind) -> Step
    ensures { symbols result ≡ at_operand (behind follows) kind }
{
    match kind {
        Kind::Fixed(Word::Str) => Some(behind_str(follows)),
        _ => at_argument(alone(follows), kind),
    }
}

/// A call.
fn at_call(follows: Follows, kind: Kind) -> Step
    ensures { symbols result ≡ at_call (behind follows) kind }
{
    match kind {
        Kind::Fixed(Word::Bound) => Some(behind_bound(follows)),
        Kind::Fixed(Word::IsIri | Word::IsUri | Word::IsLiteral) => Some(behind_test(follows)),
        Kind::Fixed(Word::SameTerm | Word::Contains | Word::StrStarts) => {
            Some(behind_relation(follows))
        }
        _ => None,
    }
}

/// What is joined to a condition, or the `)` behind it.
fn at_joined(kind: Kind) -> Step
    ensures { symbols result ≡ at_joined kind }
{
    match kind {
        Kind::Fixed(Word::And | Word::Or) => Some(&[Symbol::Condition]),
        Kind::Fixed(Word::CloseParen) => Some(&[]),
        _ => None,
    }
}

/// A condition without `!` before it.
fn at_condition(within: &'static [Symbol], operand: Follows, other: Follows, kind: Kind) -> Step
    requires { within.now ≡ Symbol.Condition ∷ behind other }
    ensures { symbols result ≡ at_condition (behind operand) (behind other) kind }
{
    match kind {
        Kind::Fixed(Word::OpenParen) => Some(within),
        Kind::Fixed(Word::Str) => at_operand(operand, kind),
        Kind::Fixed(_) => at_call(other, kind),
        _ => at_operand(operand, kind),
    }
}

/// The declarations and SELECT.
#[tactic(auto, unfolding(crate::specs::Machine::step))]
fn at_start(kind: Kind) -> Step
    ensures { symbols result ≡ step Symbol.Start kind }
{
    match kind {
        Kind::Fixed(Word::Prefix) => Some(&[Symbol::Prefix, Symbol::Iri, Symbol::Start]),
        Kind::Fixed(Word::Select) => Some(&[Symbol::Select]),
        _ => None,
    }
}

/// Columns.
#[tactic(auto, unfolding(crate::specs::Machine::step))]
fn at_columns(kind: Kind) -> Step
    ensures { symbols result ≡ step Symbol.Columns kind }
{
    match kind {
        Kind::Fixed(Word::Star) => Some(&[Symbol::Where]),
        Kind::Variable => Some(&[Symbol::MoreColumns]),
        _ => None,
    }
}

/// DISTINCT, or columns.
#[tactic(auto, unfolding(crate::specs::Machine::step))]
fn at_select(kind: Kind) -> Step
    ensures { symbols result ≡ step Symbol.Select kind }
{
    match kind {
        Kind::Fixed(Word::Distinct) => Some(&[Symbol::Columns]),
        _ => at_columns(kind),
    }
}

/// The pattern of a query.
#[tactic(auto, unfolding(crate::specs::Machine::step))]
fn at_where(kind: Kind) -> Step
    ensures { symbols result ≡ step Symbol.Where kind }
{
    match kind {
        Kind::Fixed(Word::Where) => Some(&[Symbol::Open]),
        Kind::Fixed(Word::OpenBrace) => Some(&[Symbol::Group]),
        _ => None,
    }
}

/// A further column, or the pattern.
#[tactic(auto, unfolding(crate::specs::Machine::step))]
fn at_more_columns(kind: Kind) -> Step
    ensures { symbols result ≡ step Symbol.MoreColumns kind }
{
    match kind {
        Kind::Variable => Some(&[Symbol::MoreColumns]),
        _ => at_where(kind),
    }
}

/// UNION, or what follows a group.
#[tactic(auto, unfolding(crate::specs::Machine::step))]
fn at_alts(kind: Kind) -> Step
    ensures { symbols result ≡ step Symbol.Alts kind }
{
    match kind {
        Kind::Fixed(Word::Union) => Some(&[Symbol::Open, Symbol::Alts]),
        _ => at_dot(kind),
    }
}

/// A further object, or what may follow one.
#[tactic(auto, unfolding(crate::specs::Machine::step))]
fn at_objects(kind: Kind) -> Step
    ensures { symbols result ≡ step Symbol.Objects kind }
{
    match kind {
        Kind::Fixed(Word::Comma) => Some(&[Symbol::Object, Symbol::Objects]),
        Kind::Fixed(word) => at_said(word),
        _ => None,
    }
}

/// A verb behind `;`, or what may follow that.
#[tactic(auto, unfolding(crate::specs::Machine::step))]
fn at_semicolon(kind: Kind) -> Step
    ensures { symbols result ≡ step Symbol.Said kind }
{
    match kind {
        Kind::Fixed(Word::A) => Some(&[Symbol::Object, Symbol::Objects]),
        Kind::Fixed(word) => at_said(word),
        _ => at_subject(&[Symbol::Object, Symbol::Objects], kind),
    }
}

/// The condition of a FILTER.
#[tactic(auto, unfolding(crate::specs::Machine::step))]
fn at_filter(kind: Kind) -> Step
    ensures { symbols result ≡ step Symbol.Filter kind }
{
    match kind {
        Kind::Fixed(Word::OpenParen) => Some(&[Symbol::Condition]),
        _ => at_call(Follows::Nothing, kind),
    }
}

/// A condition.
#[tactic(auto, unfolding(crate::specs::Machine::step))]
fn at_any_condition(kind: Kind) -> Step
    ensures { symbols result ≡ step Symbol.Condition kind }
{
    let within = &[Symbol::Condition, Symbol::Joined];
    match kind {
        Kind::Fixed(Word::Not) => Some(&[Symbol::Prim, Symbol::Joined]),
        _ => at_condition(within, Follows::Compared, Follows::Joined, kind),
    }
}

/// A comparison, or what is joined to a condition.
#[tactic(auto, unfolding(crate::specs::Machine::step))]
fn at_compared(kind: Kind) -> Step
    ensures { symbols result ≡ step Symbol.Compared kind }
{
    match kind {
        Kind::Fixed(Word::Equal | Word::NotEqual) => Some(&[Symbol::Operand, Symbol::Joined]),
        Kind::Fixed(Word::Less | Word::LessEqual) => Some(&[Symbol::Operand, Symbol::Joined]),
        Kind::Fixed(Word::Greater | Word::GreaterEqual) => {
            Some(&[Symbol::Operand, Symbol::Joined])
        }
        _ => at_joined(kind),
    }
}

/// The prefix of a declaration.
#[tactic(auto, unfolding(crate::specs::Machine::step))]
fn at_bare(kind: Kind) -> Step
    ensures { symbols result ≡ step Symbol.Prefix kind }
{
    match kind {
        Kind::Bare => Some(&[]),
        _ => None,
    }
}

/// The IRI of a declaration.
#[tactic(auto, unfolding(crate::specs::Machine::step))]
fn at_iri(kind: Kind) -> Step
    ensures { symbols result ≡ step Symbol.Iri kind }
{
    match kind {
        Kind::Iri => Some(&[]),
        _ => None,
    }
}

/// A group.
#[tactic(auto, unfolding(crate::specs::Machine::step))]
fn at_open(kind: Kind) -> Step
    ensures { symbols result ≡ step Symbol.Open kind }
{
    match kind {
        Kind::Fixed(Word::OpenBrace) => Some(&[Symbol::Group]),
        _ => None,
    }
}

/// A variable.
#[tactic(auto, unfolding(crate::specs::Machine::step))]
fn at_variable(kind: Kind) -> Step
    ensures { symbols result ≡ step Symbol.Variable kind }
{
    match kind {
        Kind::Variable => Some(&[]),
        _ => None,
    }
}

/// `(`
#[tactic(auto, unfolding(crate::specs::Machine::step))]
fn at_open_paren(kind: Kind) -> Step
    ensures { symbols result ≡ step Symbol.OpenParen kind }
{
    match kind {
        Kind::Fixed(Word::OpenParen) => Some(&[]),
        _ => None,
    }
}

/// `)`
#[tactic(auto, unfolding(crate::specs::Machine::step))]
fn at_close_paren(kind: Kind) -> Step
    ensures { symbols result ≡ step Symbol.CloseParen kind }
{
    match kind {
        Kind::Fixed(Word::CloseParen) => Some(&[]),
        _ => None,
    }
}

/// `,`
#[tactic(auto, unfolding(crate::specs::Machine::step))]
fn at_comma(kind: Kind) -> Step
    ensures { symbols result ≡ step Symbol.Comma kind }
{
    match kind {
        Kind::Fixed(Word::Comma) => Some(&[]),
        _ => None,
    }
}

/// What stands in the place of a symbol when it takes a token of this kind, the first to come first. `None` where it takes
/// none such.
#[tactic(auto, unfolding(crate::specs::Machine::step))]
pub(crate) fn step(symbol: Symbol, kind: Kind) -> Step
    ensures { symbols result ≡ step symbol kind }
{
    match symbol {
        Symbol::Start => at_start(kind),
        Symbol::Prefix => at_bare(kind),
        Symbol::Iri => at_iri(kind),
        Symbol::Select => at_select(kind),
        Symbol::Columns => at_columns(kind),
        Symbol::MoreColumns => at_more_columns(kind),
        Symbol::Where => at_where(kind),
        Symbol::Open => at_open(kind),
        Symbol::Group => at_content(kind),
        Symbol::Behind => at_dot(kind),
        Symbol::Alts => at_alts(kind),
        Symbol::Verb => at_verb(kind),
        Symbol::Object | Symbol::Argument => at_argument(&[], kind),
        Symbol::Objects => at_objects(kind),
        Symbol::Said => at_semicolon(kind),
        Symbol::Filter => at_filter(kind),
        Symbol::Condition => at_any_condition(kind),
        Symbol::Joined => at_joined(kind),
        Symbol::Compared => at_compared(kind),
        Symbol::Prim => {
            at_condition(
                &[Symbol::Condition],
                Follows::Nothing,
                Follows::Nothing,
                kind,
            )
        }
        Symbol::Operand => at_operand(Follows::Nothing, kind),
        Symbol::Variable => at_variable(kind),
        Symbol::OpenParen => at_open_paren(kind),
        Symbol::CloseParen => at_close_paren(kind),
        Symbol::Comma => at_comma(kind),
    }
}
