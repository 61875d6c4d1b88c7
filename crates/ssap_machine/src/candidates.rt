ghost use Rattle.std.specs.Prelude.{◌≡◌, ◌∷◌, [], true, false};
ghost use Rattle.ssap_machine.specs.Options.{options, opened, all_seen, item, quote_of};
ghost use Rattle.ssap_machine.specs.Choosing.{Tells, offer};

use crate::choice::{Candidate, Found, Pushes, find};
use crate::words::{attribute_of, finish_tag, is_often_empty, start_tag};
use crate::{Brackets, Seen, Symbol, Words};
use ssap_items::TagName;

/// A word, and what is pushed behind it.
macro_rules! word {
    ($word:expr, $pushes:expr) => {
        word_if!(true, $word, $pushes)
    };
}

/// A word that is not always allowed.
macro_rules! word_if {
    ($allowed:expr, $word:expr, $pushes:expr) => {
        Candidate {
            allowed: $allowed,
            word: $word,
            pushes: $pushes,
        }
    };
}

/// Words behind which nothing is pushed.
macro_rules! words {
    ($($word:expr),*) => {
        [$(word!($word, Pushes::Nothing)),*]
    };
}

/// The starting tag of a header that did not stand yet.
macro_rules! head {
    ($seen:expr, $field:ident, $word:expr, $name:ident) => {
        word_if!(
            !$seen.$field,
            $word,
            Pushes::Header(TagName::$name, $seen)
        )
    };
}

/// Whether all headers stood.
fn is_complete(seen: Seen) -> bool
    ensures { result ≡ all_seen seen }
{
    seen.message_type
        && seen.transaction_type
        && seen.transaction_id
        && seen.node_id
        && seen.space_id
}

/// Some words, the references with what is pushed behind each, and some more words.
macro_rules! with_references {
    ($pushes:expr; [$($before:expr),*] [$($behind:expr),*]) => {
        [
            $($before,)*
            word!(b"&lt;", $pushes),
            word!(b"&gt;", $pushes),
            word!(b"&amp;", $pushes),
            word!(b"&quot;", $pushes),
            word!(b"&apos;", $pushes),
            word!(b"&#9;", $pushes),
            word!(b"&#10;", $pushes),
            word!(b"&#13;", $pushes),
            $($behind,)*
        ]
    };
}

/// Finds one of the values of an element's one attribute.
#[inline(never)]
fn find_value(name: TagName, bytes: &[u8]) -> Found
    ensures { Tells (options (Symbol.Next (Words.Values name))) bytes.now result }
{
    match name {
        TagName::Sparql => find(
            &words![
                b"\"http://www.w3.org/2005/sparql-results#\"",
                b"'http://www.w3.org/2005/sparql-results#'"
            ],
            bytes,
        ),
        TagName::Subject => find(
            &words![
                b"\"uri\"",
                b"'uri'",
                b"\"URI\"",
                b"'URI'",
                b"\"bnode\"",
                b"'bnode'",
                b"\"BNODE\"",
                b"'BNODE'"
            ],
            bytes,
        ),
        _ => find(&words![b"\"uri\"", b"'uri'", b"\"URI\"", b"'URI'"], bytes),
    }
}

/// Finds one of the kinds of an object.
fn find_kind(bytes: &[u8]) -> Found
    ensures { Tells (options (Symbol.Next Words.ObjectKinds)) bytes.now result }
{
    find(
        &words![
            b"\"uri\"",
            b"'uri'",
            b"\"URI\"",
            b"'URI'",
            b"\"literal\"",
            b"'literal'",
            b"\"LITERAL\"",
            b"'LITERAL'",
            b"\"bnode\"",
            b"'bnode'",
            b"\"BNODE\"",
            b"'BNODE'"
        ],
        bytes,
    )
}

/// Finds one of the transactions.
fn find_transaction(bytes: &[u8]) -> Found
    ensures { Tells (options (Symbol.Next Words.Transactions)) bytes.now result }
{
    find(
        &words![
            b"JOIN",
            b"LEAVE",
            b"INSERT",
            b"REMOVE",
            b"UPDATE",
            b"QUERY",
            b"SUBSCRIBE",
            b"UNSUBSCRIBE"
        ],
        bytes,
    )
}

/// Finds one of the words of a list.
fn find_listed(list: Words, bytes: &[u8]) -> Found
    ensures { Tells (options (Symbol.Next list)) bytes.now result }
{
    match list {
        Words::Greater => find(&words![b">"], bytes),
        Words::Equals => find(&words![b"="], bytes),
        Words::Version => find(&words![b"version"], bytes),
        Words::VersionNumber => find(&words![b"\"1.0\"", b"'1.0'"], bytes),
        Words::EncodingName => find(
            &words![b"\"UTF-8\"", b"'UTF-8'", b"\"utf-8\"", b"'utf-8'"],
            bytes,
        ),
        Words::DeclarationFinish => find(&words![b"?>"], bytes),
        Words::MessageTypes => find(&words![b"REQUEST", b"CONFIRM", b"INDICATION"], bytes),
        Words::Transactions => find_transaction(bytes),
        Words::Name => find(&words![b"name"], bytes),
        Words::Kind => find(&words![b"type"], bytes),
        Words::ObjectKinds => find_kind(bytes),
        Words::Values(name) => find_value(name, bytes),
        Words::Start(name) => find(&words![start_tag(name)], bytes),
        Words::Finish(name) => find(&words![finish_tag(name)], bytes),
    }
}

/// The item of a list, which is not allowed where there is no list.
fn item_of(list: TagName) -> Candidate<'static>
    ensures { offer result ≡ item list }
{
    match list {
        TagName::TripleList => word!(b"<triple", listed(TagName::Triple, list)),
        TagName::Head => word!(b"<variable", Pushes::Listed(TagName::Variable, list)),
        TagName::Results => word!(b"<result", listed(TagName::Result, list)),
        TagName::Result => word!(b"<binding", Pushes::Listed(TagName::Binding, list)),
        _ => word_if!(false, b"", Pushes::Nothing),
    }
}

/// The rest of a list's item that has no name, and of the list.
fn listed(item: TagName, list: TagName) -> Pushes
    ensures { result ≡ Pushes.Two (Symbol.Open item) (Symbol.Many list) }
{
    Pushes::Two(Symbol::Open(item), Symbol::Many(list))
}

/// Finds an item of a list, or the list's finishing tag.
fn find_item(list: TagName, bytes: &[u8]) -> Found
    ensures { Tells (options (Symbol.Many list)) bytes.now result }
{
    let finish = word!(finish_tag(list), Pushes::One(Symbol::Next(Words::Greater)));
    find(&[finish, item_of(list)], bytes)
}

/// Finds a header that did not stand yet, a parameter, or the end of a message in which all headers stood.
fn find_head(seen: Seen, bytes: &[u8]) -> Found
    ensures { Tells (options (Symbol.Items seen)) bytes.now result }
{
    find(
        &[
            head!(seen, message_type, b"<message_type", MessageType),
            head!(
                seen,
                transaction_type,
                b"<transaction_type",
                TransactionType
            ),
            head!(seen, transaction_id, b"<transaction_id", TransactionId),
            head!(seen, node_id, b"<node_id", NodeId),
            head!(seen, space_id, b"<space_id", SpaceId),
            word!(
                b"<parameter",
                Pushes::Two(
                    Symbol::Parameter {
                        named: false,
                        encoded: false
                    },
                    Symbol::Items(seen)
                )
            ),
            word_if!(
                is_complete(seen),
                b"</SSAP_message",
                Pushes::One(Symbol::Next(Words::Greater))
            ),
        ],
        bytes,
    )
}

/// Finds the end of a starting tag, or of a self-closing one.
fn find_end(name: TagName, bytes: &[u8]) -> Found
    ensures { Tells (opened name) bytes.now result }
{
    find(
        &[
            word!(b">", Pushes::Content(name)),
            word_if!(is_often_empty(name), b"/>", Pushes::Nothing),
        ],
        bytes,
    )
}

/// Finds the one attribute, or the end of the tag.
fn find_attribute(name: TagName, bytes: &[u8]) -> Found
    ensures { Tells (options (Symbol.OptionalSpaced name)) bytes.now result }
{
    find(
        &[
            word!(attribute_of(name), Pushes::Valued(name)),
            word!(b">", Pushes::Content(name)),
            word_if!(is_often_empty(name), b"/>", Pushes::Nothing),
        ],
        bytes,
    )
}

/// Finds the end of a parameter's tag.
fn find_parameter(named: bool, encoded: bool, bytes: &[u8]) -> Found
    ensures { Tells (options (Symbol.Parameter named encoded)) bytes.now result }
{
    find(
        &[
            word_if!(named, b">", Pushes::One(Symbol::Blank)),
            word_if!(named, b"/>", Pushes::Nothing),
        ],
        bytes,
    )
}

/// Finds an attribute that a parameter has not yet, or the end of its tag.
fn find_parameter_attribute(named: bool, encoded: bool, bytes: &[u8]) -> Found
    ensures { Tells (options (Symbol.ParameterSpaced named encoded)) bytes.now result }
{
    find(
        &[
            word_if!(
                !named,
                b"name",
                Pushes::Named(Symbol::Parameter {
                    named: true,
                    encoded
                })
            ),
            word_if!(
                !encoded,
                b"encoding",
                Pushes::Named(Symbol::Parameter {
                    named,
                    encoded: true
                })
            ),
            word_if!(named, b">", Pushes::One(Symbol::Blank)),
            word_if!(named, b"/>", Pushes::Nothing),
        ],
        bytes,
    )
}

/// The quote that ends a value.
fn quote_word(single: bool) -> &'static [u8]
    ensures { result.now ≡ quote_of single ∷ [] }
{
    if single { b"'" } else { b"\"" }
}

/// Finds a reference, or the quote that ends a value.
#[inline(never)]
fn find_value_mark(single: bool, bytes: &[u8]) -> Found
    ensures { Tells (options (Symbol.Value single)) bytes.now result }
{
    let after = Pushes::One(Symbol::Value { single });
    if single {
        find(
            &with_references![after; [word!(b"'", Pushes::Nothing)] []],
            bytes,
        )
    } else {
        find(
            &with_references![after; [word!(b"\"", Pushes::Nothing)] []],
            bytes,
        )
    }
}

/// The same, with the quote first, which is the most frequent.
fn find_in_value(single: bool, bytes: &[u8]) -> Found
    ensures { Tells (options (Symbol.Value single)) bytes.now result }
{
    let quote = word!(quote_word(single), Pushes::Nothing);
    match find(&[quote], bytes) {
        Found::Whole { count, pushes } => Found::Whole { count, pushes },
        Found::Half => find_value_mark(single, bytes),
        Found::Stuck { .. } => find_value_mark(single, bytes),
    }
}

/// Finds a reference, the start of a CDATA section, or the finishing tag of a text.
#[inline(never)]
fn find_mark(name: TagName, bytes: &[u8]) -> Found
    ensures { Tells (options (Symbol.Text name)) bytes.now result }
{
    let after = Pushes::One(Symbol::Text(name));
    let section = Pushes::Two(Symbol::Cdata(Brackets::None), Symbol::Text(name));
    find(
        &with_references![after; [word!(
            finish_tag(name),
            Pushes::One(Symbol::Next(Words::Greater))
        )][word!(b"<![CDATA[", section)]],
        bytes,
    )
}

/// The same, with the finishing tag first, which is the most frequent.
fn find_in_text(name: TagName, bytes: &[u8]) -> Found
    ensures { Tells (options (Symbol.Text name)) bytes.now result }
{
    let finish = word!(finish_tag(name), Pushes::One(Symbol::Next(Words::Greater)));
    match find(&[finish], bytes) {
        Found::Whole { count, pushes } => Found::Whole { count, pushes },
        Found::Half => find_mark(name, bytes),
        Found::Stuck { .. } => find_mark(name, bytes),
    }
}

/// Finds what may stand in a parameter beside characters.
#[inline(never)]
fn find_in_parameter(bytes: &[u8]) -> Found
    ensures { Tells (options Symbol.Blank) bytes.now result }
{
    let after = Pushes::One(Symbol::Text(TagName::Parameter));
    let section = Pushes::Two(
        Symbol::Cdata(Brackets::None),
        Symbol::Text(TagName::Parameter),
    );
    find(
        &with_references![after; [
            word!(b"</parameter", Pushes::One(Symbol::Next(Words::Greater))),
            word!(
                b"<triple_list",
                Pushes::Within(Symbol::Open(TagName::TripleList), TagName::Parameter)
            ),
            word!(
                b"<sparql",
                Pushes::Within(Symbol::Optional(TagName::Sparql), TagName::Parameter)
            )
        ][word!(b"<![CDATA[", section)]],
        bytes,
    )
}

/// Finds a bracket, or the end of a CDATA section behind two of them.
#[inline(never)]
fn find_in_section(brackets: Brackets, bytes: &[u8]) -> Found
    ensures { Tells (options (Symbol.Cdata brackets)) bytes.now result }
{
    match brackets {
        Brackets::None => find(
            &[word!(b"]", Pushes::One(Symbol::Cdata(Brackets::One)))],
            bytes,
        ),
        Brackets::One => find(
            &[word!(b"]", Pushes::One(Symbol::Cdata(Brackets::Some)))],
            bytes,
        ),
        Brackets::Some => find(
            &[
                word!(b"]", Pushes::One(Symbol::Cdata(Brackets::Some))),
                word!(b">", Pushes::Nothing),
            ],
            bytes,
        ),
    }
}

/// Finds a term.
fn find_term(bytes: &[u8]) -> Found
    ensures { Tells (options Symbol.Term) bytes.now result }
{
    find(
        &[
            word!(b"<uri", Pushes::One(Symbol::Open(TagName::Uri))),
            word!(b"<literal", Pushes::One(Symbol::Open(TagName::Literal))),
            word!(b"<bnode", Pushes::One(Symbol::Open(TagName::Bnode))),
        ],
        bytes,
    )
}

/// Finds a declaration, or the message's element.
#[inline(never)]
fn find_start(bytes: &[u8]) -> Found
    ensures { Tells (options Symbol.Message) bytes.now result }
{
    find(
        &[
            word!(b"<?xml", Pushes::Declaration),
            word!(
                b"<SSAP_message",
                Pushes::One(Symbol::Open(TagName::SsapMessage))
            ),
        ],
        bytes,
    )
}

/// Finds the end of a declaration, or its encoding where that is allowed.
#[inline(never)]
fn find_declaration_end(spaced: bool, bytes: &[u8]) -> Found
    ensures end { spaced ≡ false → Tells (options Symbol.DeclarationEnd) bytes.now result }
    ensures encoding { spaced ≡ true → Tells (options Symbol.DeclarationSpaced) bytes.now result }
{
    find(
        &[
            word!(b"?>", Pushes::Nothing),
            word_if!(spaced, b"encoding", Pushes::Encoding),
        ],
        bytes,
    )
}

/// Finds a quote.
fn find_quote(bytes: &[u8]) -> Found
    ensures { Tells (options Symbol.Quote) bytes.now result }
{
    find(
        &[
            word!(b"\"", Pushes::One(Symbol::Value { single: false })),
            word!(b"'", Pushes::One(Symbol::Value { single: true })),
        ],
        bytes,
    )
}

/// Finds which of the words that the symbol may begin with stands at the start of the bytes.
pub(crate) fn find_word(symbol: Symbol, bytes: &[u8]) -> Found
    ensures { Tells (options symbol) bytes.now result }
{
    match symbol {
        Symbol::Message => find_start(bytes),
        Symbol::Next(list) => find_listed(list, bytes),
        Symbol::Spaced(_) => find(&[], bytes),
        Symbol::DeclarationEnd => find_declaration_end(false, bytes),
        Symbol::DeclarationSpaced => find_declaration_end(true, bytes),
        Symbol::Items(seen) => find_head(seen, bytes),
        Symbol::Open(name) => find_end(name, bytes),
        Symbol::Optional(name) => find_end(name, bytes),
        Symbol::OptionalSpaced(name) => find_attribute(name, bytes),
        Symbol::Parameter { named, encoded } => find_parameter(named, encoded, bytes),
        Symbol::ParameterSpaced { named, encoded } => {
            find_parameter_attribute(named, encoded, bytes)
        }
        Symbol::Quote => find_quote(bytes),
        Symbol::Value { single } => find_in_value(single, bytes),
        Symbol::Blank => find_in_parameter(bytes),
        Symbol::Text(name) => find_in_text(name, bytes),
        Symbol::Cdata(brackets) => find_in_section(brackets, bytes),
        Symbol::Many(list) => find_item(list, bytes),
        Symbol::Term => find_term(bytes),
    }
}
