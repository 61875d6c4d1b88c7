//! The words that name an errand.
ghost use Rattle.std.specs.Prelude.{◌≡◌, ◌∷◌, [], ℕ, length, IfOk, IfSome, MatchBool, MatchOption};
ghost use Rattle.m3_terms.specs.Text.{IsText};
ghost use Rattle.m3_terms.specs.Term.{IsUriText, IsLiteralText};
ghost use Rattle.ssap_shape.specs.Sound.{IsSoundId};
ghost use Rattle.kp_talk.specs.Stages.{HasUris};
ghost use Rattle.kp_talk.specs.Words.{texts, query_word, watch_word, insert_word, word_of, term_with, IsTextOf, AreTextsOf, IsReading, IsBare, IsCount};
ghost use Rattle.m3_terms.specs.declared.term.Term.TheVariants.{Uri as UriTerm};
ghost use Rattle.kp_talk.specs.declared.errand.Task.TheVariants.{Insert as InsertTask, Query as QueryTask, Watch as WatchTask};

use crate::{Errand, Task};
use m3_terms::{NoMemory, TERM_LIMIT, Term, Text, Triple, text_len};
use std::alloc::Global;

/// The most bytes that the name of a space or of a node has.
const NAME_LIMIT: usize = 1024;

/// The most changes that a client watches.
pub const COUNT_LIMIT: u32 = 1_000_000;

/// A kind of term.
#[derive(Clone, Copy)]
enum Kind {
    Uri,
    Literal,
}

// Whether bytes are a text.
fn is_text(bytes: &[u8]) -> bool
    ensures { MatchBool result (IsText bytes.now) (¬ IsText bytes.now) }
{
    text_len(bytes) == bytes.len()
}

/// Whether bytes are an identifier, as the name of a space or of a node: a text of 1 to 1,024 bytes.
pub fn is_identifier(bytes: &[u8]) -> bool
    ensures { MatchBool result (IsSoundId bytes.now) (¬ IsSoundId bytes.now) }
{
    if bytes.is_empty() || bytes.len() > NAME_LIMIT {
        return false;
    }
    is_text(bytes)
}

// Whether the names of a space and of a node are identifiers.
fn are_identifiers(space: &[u8], node: &[u8]) -> bool
    ensures { MatchBool result (IsSoundId space.now × IsSoundId node.now) (¬ (IsSoundId space.now × IsSoundId node.now)) }
{
    is_identifier(space) && is_identifier(node)
}

// Whether bytes are the text of a literal.
fn is_literal(bytes: &[u8]) -> bool
    ensures { MatchBool result (IsLiteralText bytes.now) (¬ IsLiteralText bytes.now) }
{
    bytes.len() <= TERM_LIMIT && is_text(bytes)
}

// Whether bytes are the text of a uri.
fn is_uri(bytes: &[u8]) -> bool
    ensures { MatchBool result (IsUriText bytes.now) (¬ IsUriText bytes.now) }
{
    !bytes.is_empty() && is_literal(bytes)
}

// Whether bytes are the text of a term of a kind.
fn is_of(kind: Kind, bytes: &[u8]) -> bool
    ensures { MatchBool result (IsTextOf kind bytes.now) (¬ IsTextOf kind bytes.now) }
{
    match kind {
        Kind::Uri => is_uri(bytes),
        Kind::Literal => is_literal(bytes),
    }
}

// Whether these are the texts of a triple's terms.
fn are_of(subject: &[u8], predicate: &[u8], kind: Kind, object: &[u8]) -> bool
    ensures { MatchBool result (AreTextsOf subject.now predicate.now kind object.now) (¬ AreTextsOf subject.now predicate.now kind object.now) }
{
    if !is_uri(subject) || !is_uri(predicate) {
        return false;
    }
    is_of(kind, object)
}

// The kind that a word names.
fn kind_of(word: &str) -> Option<Kind>
    ensures { MatchOption result ((kind : Kind) → ¬ (word.now ≡ word_of kind)) (λ kind. word.now ≡ word_of kind) }
{
    if word == "uri" {
        Some(Kind::Uri)
    } else if word == "literal" {
        Some(Kind::Literal)
    } else {
        None
    }
}

// Whether the text of a number has neither a sign nor a leading zero.
fn is_bare(text: &[u8]) -> bool
    ensures { MatchBool result (IsBare text.now) (¬ IsBare text.now) }
{
    if text.is_empty() || text[0] == b'+' {
        return false;
    }
    text[0] != b'0' || text.len() == 1
}

/// The count that a word is in decimal without a leading zero, from 0 to 1,000,000, or `None` where it is no such count.
pub fn count_of(word: &str) -> Option<u32>
    ensures { MatchOption result ((count : ℕ) → ¬ (IsCount word.now count)) (IsCount word.now) }
{
    if !is_bare(word.as_bytes()) {
        return None;
    }
    match word.parse::<u32>() {
        Ok(count) => {
            if count <= COUNT_LIMIT {
                Some(count)
            } else {
                None
            }
        }
        Err(_) => None,
    }
}

// The text of these bytes, which are one.
fn text_of(alloc: Global, bytes: &[u8]) -> Result<Text, NoMemory>
    requires { IsText bytes.now }
    ensures { IfOk result (λ text. text ≡ bytes.now) }
{
    match Text::read(alloc, bytes) {
        Ok(text) => Ok(text),
        Err(_) => Err(NoMemory),
    }
}

// The term of a kind with this text.
fn term_of(alloc: Global, kind: Kind, bytes: &[u8]) -> Result<Term, NoMemory>
    requires { IsText bytes.now }
    ensures { IfOk result (λ term. term ≡ term_with kind bytes.now) }
{
    match kind {
        Kind::Uri => Ok(Term::Uri(text_of(alloc, bytes)?)),
        Kind::Literal => Ok(Term::Literal(text_of(alloc, bytes)?)),
    }
}

// The triple of two uris and a term.
fn triple_of(
    alloc: Global,
    subject: &[u8],
    predicate: &[u8],
    kind: Kind,
    object: &[u8],
) -> Result<Triple, NoMemory>
    requires { AreTextsOf subject.now predicate.now kind object.now }
    ensures { IfOk result (λ triple. triple ≡ record { subject = UriTerm subject.now; predicate = UriTerm predicate.now; object = term_with kind object.now }) }
{
    Ok(Triple {
        subject: Term::Uri(text_of(alloc, subject)?),
        predicate: Term::Uri(text_of(alloc, predicate)?),
        object: term_of(alloc, kind, object)?,
    })
}

// The errand of a task, in a space and under a node.
fn errand(alloc: Global, space: &[u8], node: &[u8], task: Task) -> Result<Errand, NoMemory>
    requires { IsSoundId space.now × IsSoundId node.now }
    ensures { IfOk result (λ errand. errand ≡ record { space = space.now; node = node.now; task = task }) }
{
    Ok(Errand {
        space: text_of(alloc, space)?,
        node: text_of(alloc, node)?,
        task,
    })
}

// The errand of an insert.
fn insert_errand(
    alloc: Global,
    space: &[u8],
    node: &[u8],
    subject: &[u8],
    predicate: &[u8],
    kind: Kind,
    object: &[u8],
) -> Result<Errand, NoMemory>
    requires named { IsSoundId space.now × IsSoundId node.now }
    requires terms { AreTextsOf subject.now predicate.now kind object.now }
    ensures { IfOk result (λ errand. errand ≡ record {
      space = space.now;
      node = node.now;
      task = InsertTask (record { subject = UriTerm subject.now; predicate = UriTerm predicate.now; object = term_with kind object.now });
    }) }
{
    let triple = triple_of(alloc, subject, predicate, kind, object)?;
    errand(alloc, space, node, Task::Insert(triple))
}

// The errand of a query.
fn query_errand(alloc: Global, space: &[u8], node: &[u8], text: &[u8]) -> Result<Errand, NoMemory>
    requires named { IsSoundId space.now × IsSoundId node.now }
    requires text { IsText text.now }
    ensures { IfOk result (λ errand. errand ≡ record { space = space.now; node = node.now; task = QueryTask text.now }) }
{
    let text = text_of(alloc, text)?;
    errand(alloc, space, node, Task::Query(text))
}

// The errand of a subscription.
fn watch_errand(
    alloc: Global,
    space: &[u8],
    node: &[u8],
    text: &[u8],
    count: u32,
) -> Result<Errand, NoMemory>
    requires named { IsSoundId space.now × IsSoundId node.now }
    requires text { IsText text.now }
    ensures { IfOk result (λ errand. errand ≡ record { space = space.now; node = node.now; task = WatchTask text.now count }) }
{
    let text = text_of(alloc, text)?;
    errand(alloc, space, node, Task::Watch { text, count })
}

// What the words of an insert come to.
fn insert(
    alloc: Global,
    space: &[u8],
    node: &[u8],
    subject: &[u8],
    predicate: &[u8],
    kind: Kind,
    object: &[u8],
) -> Result<Option<Errand>, NoMemory>
    ensures { IsReading (insert_word ∷ space.now ∷ node.now ∷ subject.now ∷ predicate.now ∷ word_of kind ∷ object.now ∷ []) result }
{
    if !are_identifiers(space, node) || !are_of(subject, predicate, kind, object) {
        return Ok(None);
    }
    match insert_errand(alloc, space, node, subject, predicate, kind, object) {
        Ok(errand) => Ok(Some(errand)),
        Err(refused) => Err(refused),
    }
}

// What the words of a query come to.
fn query(alloc: Global, space: &[u8], node: &[u8], text: &[u8]) -> Result<Option<Errand>, NoMemory>
    ensures { IsReading (query_word ∷ space.now ∷ node.now ∷ text.now ∷ []) result }
{
    if !are_identifiers(space, node) || !is_text(text) {
        return Ok(None);
    }
    match query_errand(alloc, space, node, text) {
        Ok(errand) => Ok(Some(errand)),
        Err(refused) => Err(refused),
    }
}

// What the words of a subscription come to.
fn watch(
    alloc: Global,
    space: &[u8],
    node: &[u8],
    text: &[u8],
    count: &str,
) -> Result<Option<Errand>, NoMemory>
    ensures { IsReading (watch_word ∷ space.now ∷ node.now ∷ text.now ∷ count.now ∷ []) result }
{
    if !are_identifiers(space, node) || !is_text(text) {
        return Ok(None);
    }
    let Some(count) = count_of(count) else {
        return Ok(None);
    };
    match watch_errand(alloc, space, node, text, count) {
        Ok(errand) => Ok(Some(errand)),
        Err(refused) => Err(refused),
    }
}

// What four words come to.
fn of_four(alloc: Global, words: &[String]) -> Result<Option<Errand>, NoMemory>
    ensures { length words.now ≡ 4 → IsReading (texts words.now) result }
{
    let [command, space, node, text] = words else {
        return Ok(None);
    };
    if command.as_str() != "query" {
        return Ok(None);
    }
    query(alloc, space.as_bytes(), node.as_bytes(), text.as_bytes())
}

// What five words come to.
fn of_five(alloc: Global, words: &[String]) -> Result<Option<Errand>, NoMemory>
    ensures { length words.now ≡ 5 → IsReading (texts words.now) result }
{
    let [command, space, node, text, count] = words else {
        return Ok(None);
    };
    if command.as_str() != "watch" {
        return Ok(None);
    }
    watch(
        alloc,
        space.as_bytes(),
        node.as_bytes(),
        text.as_bytes(),
        count.as_str(),
    )
}

// What seven words come to.
fn of_seven(alloc: Global, words: &[String]) -> Result<Option<Errand>, NoMemory>
    ensures { length words.now ≡ 7 → IsReading (texts words.now) result }
{
    let [command, space, node, subject, predicate, kind, object] = words else {
        return Ok(None);
    };
    if command.as_str() != "insert" {
        return Ok(None);
    }
    let Some(kind) = kind_of(kind.as_str()) else {
        return Ok(None);
    };
    insert(
        alloc,
        space.as_bytes(),
        node.as_bytes(),
        subject.as_bytes(),
        predicate.as_bytes(),
        kind,
        object.as_bytes(),
    )
}

/// The errand that the words name, or `None` where they name none. Memory is taken only where they name one.
///
/// | Words | Errand |
/// |---|---|
/// | `insert SPACE NODE SUBJECT PREDICATE KIND OBJECT` | insert the triple of two uris and a term; KIND is `uri` or `literal` and says which OBJECT is |
/// | `query SPACE NODE TEXT` | ask the query TEXT in SPARQL |
/// | `watch SPACE NODE TEXT N` | subscribe to TEXT, and take N of its changes, with N from 0 to 1,000,000 in decimal without a leading zero |
///
/// SPACE and NODE are texts of 1 to 1,024 bytes. A uri has 1 to 4,096 bytes, a literal 0 to 4,096.
pub fn errand_of(alloc: Global, words: &[String]) -> Result<Option<Errand>, NoMemory>
    ensures reading { IsReading (texts words.now) result }
    ensures uris { IfOk result (λ found. IfSome found (λ errand. HasUris errand.task)) }
{
    if words.len() == 4 {
        of_four(alloc, words)
    } else if words.len() == 5 {
        of_five(alloc, words)
    } else if words.len() == 7 {
        of_seven(alloc, words)
    } else {
        Ok(None)
    }
}
