ghost use Rattle.std.specs.Prelude.{◌≡◌, ℕ, ◌<◌, ◌≤◌, ◌∷◌, length, slice_index};
ghost use Rattle.ssap_machine.specs.Options.{quote_of};
ghost use Rattle.ssap_machine.specs.Heights.{Fits};
ghost use Rattle.ssap_grammar.specs.Characters.{IsWhite};
ghost use Rattle.ssap_machine.specs.Progress.{Steps, OnlyWords, TakesCharacters, WordsAtAscii, PlainBegins, PlainGoesOn, WordsAtStops, IsTight, white_next};

use crate::candidates::find_word;
use crate::characters::{CharacterFront, character_front};
use crate::choice::Found;
use crate::plain::plain_len;
use crate::{Brackets, Stack, Symbol};
use ssap_items::TagName;

/// What is read at once, of the symbol that is next.
#[derive(Clone, Copy)]
pub(crate) enum Step {
    /// So many bytes, some.
    Taken { count: usize },
    /// The bytes end inside a lexeme, or there are none.
    Half,
    /// No lexeme goes on with the byte at this offset.
    Stuck { place: usize },
}

/// Reads a word.
pub(crate) fn step_word(symbol: Symbol, stack: &mut Stack, bytes: &[u8]) -> Step
    requires fits { Fits (symbol ∷ stack.old) }
    requires words { OnlyWords symbol bytes.now }
    ensures { Steps symbol bytes.now result stack.old stack.new }
{
    match find_word(symbol, bytes) {
        Found::Whole { count, pushes } => {
            pushes.push_on(stack);
            Step::Taken { count }
        }
        Found::Half => Step::Half,
        Found::Stuck { place } => Step::Stuck { place },
    }
}

/// Reads a word, or a character beyond ASCII.
fn step_other(symbol: Symbol, next: Symbol, stack: &mut Stack, bytes: &[u8]) -> Step
    requires fits { Fits (symbol ∷ stack.old) }
    requires room { Fits (next ∷ stack.old) }
    requires words { WordsAtAscii symbol bytes.now }
    requires characters { TakesCharacters symbol next }
    ensures { Steps symbol bytes.now result stack.old stack.new }
{
    if bytes.is_empty() {
        return Step::Half;
    }
    if bytes[0] < 128 {
        return step_word(symbol, stack, bytes);
    }
    match character_front(bytes) {
        CharacterFront::Whole { count } => {
            stack.push(next);
            Step::Taken { count }
        }
        CharacterFront::Half => Step::Half,
        CharacterFront::Stuck { place } => Step::Stuck { place },
    }
}

/// Three bytes of ASCII at which a run of plain characters ends.
#[derive(Clone, Copy)]
struct Ends {
    first: u8,
    second: u8,
    third: u8,
}

/// The ends of a run in a text.
const MARKS: Ends = Ends {
    first: b'<',
    second: b'&',
    third: b'<',
};

/// The end of a run in a CDATA section.
const BRACKET: Ends = Ends {
    first: b']',
    second: b']',
    third: b']',
};

/// Reads a run of plain characters, or what else stands there.
fn step_plain(symbol: Symbol, next: Symbol, ends: Ends, stack: &mut Stack, bytes: &[u8]) -> Step
    requires fits { Fits (symbol ∷ stack.old) }
    requires room { Fits (next ∷ stack.old) }
    requires first { ends.first < 128 }
    requires second { ends.second < 128 }
    requires third { ends.third < 128 }
    requires begins { PlainBegins symbol next ends.first ends.second ends.third bytes.now }
    requires goes_on { PlainGoesOn next ends.first ends.second ends.third }
    requires words { WordsAtStops symbol ends.first ends.second ends.third bytes.now }
    requires characters { TakesCharacters symbol next }
    ensures { Steps symbol bytes.now result stack.old stack.new }
{
    let count = plain_len(ends.first, ends.second, ends.third, bytes);
    if count > 0 {
        stack.push(next);
        return Step::Taken { count };
    }
    step_other(symbol, next, stack, bytes)
}

/// Reads in a text.
fn step_text(name: TagName, stack: &mut Stack, bytes: &[u8]) -> Step
    requires { Fits (Symbol.Text name ∷ stack.old) }
    ensures { Steps (Symbol.Text name) bytes.now result stack.old stack.new }
{
    let symbol = Symbol::Text(name);
    step_plain(symbol, symbol, MARKS, stack, bytes)
}

/// The quote of an attribute's value.
fn quote(single: bool) -> u8
    ensures value { result ≡ quote_of single }
    ensures low { result < 128 }
{
    if single { b'\'' } else { b'"' }
}

/// Reads in an attribute's value.
fn step_value(single: bool, stack: &mut Stack, bytes: &[u8]) -> Step
    requires { Fits (Symbol.Value single ∷ stack.old) }
    ensures { Steps (Symbol.Value single) bytes.now result stack.old stack.new }
{
    let symbol = Symbol::Value { single };
    let ends = Ends {
        first: b'<',
        second: b'&',
        third: quote(single),
    };
    step_plain(symbol, symbol, ends, stack, bytes)
}

/// Reads in a parameter in which white space stood at most.
fn step_blank(stack: &mut Stack, bytes: &[u8]) -> Step
    requires fits { Fits (Symbol.Blank ∷ stack.old) }
    requires tight { IsTight Symbol.Blank bytes.now }
    ensures { Steps Symbol.Blank bytes.now result stack.old stack.new }
{
    let next = Symbol::Text(TagName::Parameter);
    step_plain(Symbol::Blank, next, MARKS, stack, bytes)
}

/// Reads in a CDATA section behind two brackets.
fn step_after_brackets(stack: &mut Stack, bytes: &[u8]) -> Step
    requires { Fits (Symbol.Cdata Brackets.Some ∷ stack.old) }
    ensures { Steps (Symbol.Cdata Brackets.Some) bytes.now result stack.old stack.new }
{
    let symbol = Symbol::Cdata(Brackets::Some);
    if bytes.is_empty() {
        return Step::Half;
    }
    if bytes[0] == b'>' {
        return step_word(symbol, stack, bytes);
    }
    step_plain(symbol, Symbol::Cdata(Brackets::None), BRACKET, stack, bytes)
}

/// Reads in a CDATA section.
fn step_section(brackets: Brackets, stack: &mut Stack, bytes: &[u8]) -> Step
    requires { Fits (Symbol.Cdata brackets ∷ stack.old) }
    ensures { Steps (Symbol.Cdata brackets) bytes.now result stack.old stack.new }
{
    let next = Symbol::Cdata(Brackets::None);
    match brackets {
        Brackets::None => step_plain(next, next, BRACKET, stack, bytes),
        Brackets::One => step_plain(Symbol::Cdata(Brackets::One), next, BRACKET, stack, bytes),
        Brackets::Some => step_after_brackets(stack, bytes),
    }
}

/// The length of the white space at the start of the bytes.
fn white_len(bytes: &[u8]) -> usize
    ensures within { result ≤ length bytes.now }
    ensures white { (k : ℕ) → k < result → IsWhite (slice_index bytes.now k) }
    ensures stop { result < length bytes.now → ¬ (IsWhite (slice_index bytes.now result)) }
{
    for at in 0..bytes.len() {
        if !matches!(bytes[at], b' ' | b'\t' | b'\r' | b'\n') {
            return at;
        }
    }
    bytes.len()
}

/// What a byte of white space leaves of a symbol. `None` where the symbol may not begin with one.
#[tactic(auto, unfolding(crate::specs::Progress::white_next))]
fn after_white(symbol: Symbol) -> Option<Symbol>
    ensures { result ≡ white_next symbol }
{
    match symbol {
        Symbol::Spaced(list) => Some(Symbol::Next(list)),
        Symbol::DeclarationEnd => Some(Symbol::DeclarationSpaced),
        Symbol::Optional(name) => Some(Symbol::OptionalSpaced(name)),
        Symbol::Parameter { named, encoded } => Some(Symbol::ParameterSpaced { named, encoded }),
        Symbol::Next(_)
        | Symbol::DeclarationSpaced
        | Symbol::Items(_)
        | Symbol::Open(_)
        | Symbol::OptionalSpaced(_)
        | Symbol::ParameterSpaced { .. }
        | Symbol::Quote
        | Symbol::Blank
        | Symbol::Many(_)
        | Symbol::Term => Some(symbol),
        Symbol::Message | Symbol::Value { .. } | Symbol::Text(_) | Symbol::Cdata(_) => None,
    }
}

/// Reads what is no white space.
fn step_tight(symbol: Symbol, stack: &mut Stack, bytes: &[u8]) -> Step
    requires fits { Fits (symbol ∷ stack.old) }
    requires tight { IsTight symbol bytes.now }
    ensures { Steps symbol bytes.now result stack.old stack.new }
{
    match symbol {
        Symbol::Text(name) => step_text(name, stack, bytes),
        Symbol::Value { single } => step_value(single, stack, bytes),
        Symbol::Blank => step_blank(stack, bytes),
        Symbol::Cdata(brackets) => step_section(brackets, stack, bytes),
        _ => step_word(symbol, stack, bytes),
    }
}

/// Reads on from a symbol that was on top of the stack: a run of white space, where the symbol may begin with one, or
/// what stands there.
pub(crate) fn read_on(symbol: Symbol, stack: &mut Stack, bytes: &[u8]) -> Step
    requires { Fits (symbol ∷ stack.old) }
    ensures { Steps symbol bytes.now result stack.old stack.new }
{
    let count = white_len(bytes);
    if count == 0 {
        return step_tight(symbol, stack, bytes);
    }
    match after_white(symbol) {
        Some(next) => {
            stack.push(next);
            Step::Taken { count }
        }
        None => step_tight(symbol, stack, bytes),
    }
}
