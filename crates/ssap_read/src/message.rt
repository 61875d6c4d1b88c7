ghost use Rattle.std.specs.Prelude.{ℕ, List, IfOk, IfSome, IfNone};
ghost use Rattle.ssap_items.specs.declared.envelope.Envelope.{Envelope};
ghost use Rattle.ssap_grammar.specs.Message.{ReadsEncoding, ReadsDeclaration, Spells};
ghost use Rattle.ssap_text.specs.Ends.{BeginsFinish};
ghost use Rattle.ssap_read.specs.Told.{Told, Passed, Whatever};
ghost use Rattle.ssap_read.specs.Pieces.{ReadsContent, ReadsRootOf};
ghost use Rattle.ssap_read.specs.Declarations.{IsBehindEncoding, IsBehind};

use crate::attribute::{attribute, quoted};
use crate::element::{closes, finished, start};
use crate::gather::Gathered;
use crate::piece::read_piece;
use m3_terms::NoMemory;
use ssap_items::Envelope;
use ssap_text::skip_spaces;
use std::alloc::Global;

/// The bytes behind the attribute `encoding` of a declaration.
fn encoding(bytes: &[u8]) -> Option<&[u8]>
    ensures { Passed ReadsEncoding Whatever bytes.now result }
{
    let value = attribute(b"encoding", bytes)?;
    match quoted(b"UTF-8", value) {
        Some(rest) => Some(rest),
        None => quoted(b"utf-8", value),
    }
}

/// The bytes behind the attribute `encoding`, or all of them where there is none.
fn skip_encoding(bytes: &[u8]) -> &[u8]
    ensures { IsBehindEncoding bytes.now result.now }
{
    match encoding(bytes) {
        Some(rest) => rest,
        None => bytes,
    }
}

/// The bytes behind a declaration.
fn declaration(bytes: &[u8]) -> Option<&[u8]>
    ensures { Passed ReadsDeclaration Whatever bytes.now result }
{
    let version = attribute(b"version", bytes.strip_prefix(b"<?xml")?)?;
    let behind = quoted(b"1.0", version)?;
    skip_spaces(skip_encoding(behind)).strip_prefix(b"?>")
}

/// The bytes behind a declaration and white space, or all of them where there is none.
fn skip_declaration(bytes: &[u8]) -> &[u8]
    ensures { IsBehind bytes.now result.now }
{
    match declaration(bytes) {
        Some(rest) => skip_spaces(rest),
        None => bytes,
    }
}

/// The envelope of the pieces up to a finishing tag. `None` also where a header is missing or stands twice.
fn content<'a>(alloc: Global, bytes: &'a [u8]) -> Result<Option<(Envelope, &'a [u8])>, NoMemory>
    ensures { IfOk result (Told ReadsContent BeginsFinish bytes.now) }
{
    let mut gathered = Gathered::new(alloc);
    let mut rest = skip_spaces(bytes);
    'each: while !closes(rest) {
        let Some((piece, behind)) = read_piece(alloc, rest)? else {
            return Ok(None);
        };
        let taken = gathered.take(piece)?;
        if !taken {
            return Ok(None);
        }
        rest = skip_spaces(behind);
    }
    let Some(envelope) = gathered.complete() else {
        return Ok(None);
    };
    Ok(Some((envelope, rest)))
}

/// The envelope of the element of a message, which has no empty form.
fn root<'a>(alloc: Global, bytes: &'a [u8]) -> Result<Option<(Envelope, &'a [u8])>, NoMemory>
    ensures { IfOk result (Told ReadsRootOf Whatever bytes.now) }
{
    let Some((closed, rest)) = start(b"SSAP_message", bytes) else {
        return Ok(None);
    };
    if closed {
        return Ok(None);
    }
    Ok(finished(b"SSAP_message", content(alloc, rest)?))
}

/// The envelope that the bytes spell, with nothing before or behind. `None` exactly where they spell none. The error is
/// that there is no memory.
pub fn read_envelope(alloc: Global, bytes: &[u8]) -> Result<Option<Envelope>, NoMemory>
    ensures found { IfOk result (λ r. IfSome r (λ envelope. Spells bytes.now envelope)) }
    ensures none { IfOk result (λ r. IfNone r ((envelope : Envelope) → ¬ (Spells bytes.now envelope))) }
{
    let begin = skip_declaration(bytes);
    let Some((envelope, rest)) = root(alloc, begin)? else {
        return Ok(None);
    };
    if !rest.is_empty() {
        return Ok(None);
    }
    Ok(Some(envelope))
}
