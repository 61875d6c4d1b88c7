ghost use Rattle.std.specs.Prelude.{IfOk};
ghost use Rattle.ssap_grammar.specs.Table.{ReadsName, ReadsVariable, ReadsHead, ReadsTerm, ReadsBinding, ReadsResult, ReadsResults, ReadsNamespace, ReadsSparql};
ghost use Rattle.ssap_text.specs.Ends.{BeginsFinish};
ghost use Rattle.ssap_read.specs.Told.{Told, Passed, Whatever};
ghost use Rattle.ssap_read.specs.Tags.{ReadsStart, ReadsEach};
ghost use Rattle.ssap_read.specs.Tables.{ReadsTableStart, ReadsBound, ReadsTableParts};

use crate::attribute::{attribute, quoted, value_attribute};
use crate::element::{closes, end_of_tag, finished, open, spaces_in, start};
use crate::text::text_element;
use m3_terms::{Columns, Items, NoMemory, Text};
use ssap_items::{Kind, RawCell, RawRow, RawRows, RawTable, RawTerm};
use ssap_text::skip_spaces;
use std::alloc::Global;

/// A starting tag with the attribute `name`: its value, and whether the element is closed there.
fn named_start<'a>(
    alloc: Global,
    tag: &[u8],
    bytes: &'a [u8],
) -> Result<Option<((Text, bool), &'a [u8])>, NoMemory>
    ensures { IfOk result (Told (ReadsStart tag.now ReadsName) Whatever bytes.now) }
{
    let Some(rest) = open(tag, bytes) else {
        return Ok(None);
    };
    let Some((name, rest)) = value_attribute(alloc, b"name", rest)? else {
        return Ok(None);
    };
    let Some((closed, rest)) = end_of_tag(rest) else {
        return Ok(None);
    };
    Ok(Some(((name, closed), rest)))
}

/// The name in the element of a variable.
fn variable<'a>(alloc: Global, bytes: &'a [u8]) -> Result<Option<(Text, &'a [u8])>, NoMemory>
    ensures { IfOk result (Told ReadsVariable Whatever bytes.now) }
{
    let Some((begun, rest)) = named_start(alloc, b"variable", bytes)? else {
        return Ok(None);
    };
    let closed = begun.1;
    let Some(rest) = spaces_in(b"variable", closed, rest) else {
        return Ok(None);
    };
    Ok(Some((begun.0, rest)))
}

/// The variables up to a finishing tag, with white space around each.
fn each_variable<'a>(
    alloc: Global,
    bytes: &'a [u8],
) -> Result<Option<(Columns, &'a [u8])>, NoMemory>
    ensures { IfOk result (Told (ReadsEach ReadsVariable) BeginsFinish bytes.now) }
{
    let mut variables = Items::new(alloc);
    let mut rest = skip_spaces(bytes);
    'each: while !closes(rest) {
        let Some((variable, behind)) = variable(alloc, rest)? else {
            return Ok(None);
        };
        variables.push(variable)?;
        rest = skip_spaces(behind);
    }
    Ok(Some((variables, rest)))
}

/// The element of the variables of a table. One of none may be self-closing.
fn head<'a>(alloc: Global, bytes: &'a [u8]) -> Result<Option<(Columns, &'a [u8])>, NoMemory>
    ensures { IfOk result (Told ReadsHead Whatever bytes.now) }
{
    let Some((closed, rest)) = start(b"head", bytes) else {
        return Ok(None);
    };
    if closed {
        return Ok(Some((Items::new(alloc), rest)));
    }
    Ok(finished(b"head", each_variable(alloc, rest)?))
}

/// The element of a term, which has the name of its kind.
fn term<'a>(alloc: Global, bytes: &'a [u8]) -> Result<Option<(RawTerm, &'a [u8])>, NoMemory>
    ensures { IfOk result (Told ReadsTerm Whatever bytes.now) }
{
    if let Some((text, rest)) = text_element(alloc, b"uri", bytes)? {
        let kind = Kind::Uri;
        return Ok(Some((RawTerm { kind, text }, rest)));
    }
    if let Some((text, rest)) = text_element(alloc, b"literal", bytes)? {
        let kind = Kind::Literal;
        return Ok(Some((RawTerm { kind, text }, rest)));
    }
    if let Some((text, rest)) = text_element(alloc, b"bnode", bytes)? {
        let kind = Kind::Bnode;
        return Ok(Some((RawTerm { kind, text }, rest)));
    }
    Ok(None)
}

/// A term with white space around it.
fn bound<'a>(alloc: Global, bytes: &'a [u8]) -> Result<Option<(RawTerm, &'a [u8])>, NoMemory>
    ensures { IfOk result (Told ReadsBound BeginsFinish bytes.now) }
{
    let Some((value, rest)) = term(alloc, skip_spaces(bytes))? else {
        return Ok(None);
    };
    Ok(Some((value, skip_spaces(rest))))
}

/// The element of a binding. It has no empty form.
fn binding<'a>(alloc: Global, bytes: &'a [u8]) -> Result<Option<(RawCell, &'a [u8])>, NoMemory>
    ensures { IfOk result (Told ReadsBinding Whatever bytes.now) }
{
    let Some((begun, rest)) = named_start(alloc, b"binding", bytes)? else {
        return Ok(None);
    };
    let closed = begun.1;
    if closed {
        return Ok(None);
    }
    let Some((value, rest)) = finished(b"binding", bound(alloc, rest)?) else {
        return Ok(None);
    };
    let name = begun.0;
    Ok(Some((RawCell { name, value }, rest)))
}

/// The bindings up to a finishing tag, with white space around each.
fn each_binding<'a>(alloc: Global, bytes: &'a [u8]) -> Result<Option<(RawRow, &'a [u8])>, NoMemory>
    ensures { IfOk result (Told (ReadsEach ReadsBinding) BeginsFinish bytes.now) }
{
    let mut bindings = Items::new(alloc);
    let mut rest = skip_spaces(bytes);
    'each: while !closes(rest) {
        let Some((binding, behind)) = binding(alloc, rest)? else {
            return Ok(None);
        };
        bindings.push(binding)?;
        rest = skip_spaces(behind);
    }
    Ok(Some((bindings, rest)))
}

/// The element of a row. One without bindings may be self-closing.
fn result_row<'a>(alloc: Global, bytes: &'a [u8]) -> Result<Option<(RawRow, &'a [u8])>, NoMemory>
    ensures { IfOk result (Told ReadsResult Whatever bytes.now) }
{
    let Some((closed, rest)) = start(b"result", bytes) else {
        return Ok(None);
    };
    if closed {
        return Ok(Some((Items::new(alloc), rest)));
    }
    Ok(finished(b"result", each_binding(alloc, rest)?))
}

/// The rows up to a finishing tag, with white space around each.
fn each_result_row<'a>(
    alloc: Global,
    bytes: &'a [u8],
) -> Result<Option<(RawRows, &'a [u8])>, NoMemory>
    ensures { IfOk result (Told (ReadsEach ReadsResult) BeginsFinish bytes.now) }
{
    let mut result_rows = Items::new(alloc);
    let mut rest = skip_spaces(bytes);
    'each: while !closes(rest) {
        let Some((result_row, behind)) = result_row(alloc, rest)? else {
            return Ok(None);
        };
        result_rows.push(result_row)?;
        rest = skip_spaces(behind);
    }
    Ok(Some((result_rows, rest)))
}

/// The element of the rows of a table. One of none may be self-closing.
fn results<'a>(alloc: Global, bytes: &'a [u8]) -> Result<Option<(RawRows, &'a [u8])>, NoMemory>
    ensures { IfOk result (Told ReadsResults Whatever bytes.now) }
{
    let Some((closed, rest)) = start(b"results", bytes) else {
        return Ok(None);
    };
    if closed {
        return Ok(Some((Items::new(alloc), rest)));
    }
    Ok(finished(b"results", each_result_row(alloc, rest)?))
}

/// The attribute `xmlns`, which has one value.
fn namespace(bytes: &[u8]) -> Option<&[u8]>
    ensures { Passed ReadsNamespace Whatever bytes.now result }
{
    quoted(
        b"http://www.w3.org/2005/sparql-results#",
        attribute(b"xmlns", bytes)?,
    )
}

/// The starting tag of a table: whether it is closed there.
fn table_start(bytes: &[u8]) -> Option<(bool, &[u8])>
    ensures { Told ReadsTableStart Whatever bytes.now result }
{
    let rest = open(b"sparql", bytes)?;
    match namespace(rest) {
        Some(rest) => end_of_tag(rest),
        None => end_of_tag(rest),
    }
}

/// The variables and the rows of a table with white space around them.
fn table_parts<'a>(alloc: Global, bytes: &'a [u8]) -> Result<Option<(RawTable, &'a [u8])>, NoMemory>
    ensures { IfOk result (Told ReadsTableParts BeginsFinish bytes.now) }
{
    let Some((columns, rest)) = head(alloc, skip_spaces(bytes))? else {
        return Ok(None);
    };
    let Some((rows, rest)) = results(alloc, skip_spaces(rest))? else {
        return Ok(None);
    };
    Ok(Some((RawTable { columns, rows }, skip_spaces(rest))))
}

/// The element of a table. It has no empty form.
pub fn table<'a>(alloc: Global, bytes: &'a [u8]) -> Result<Option<(RawTable, &'a [u8])>, NoMemory>
    ensures { IfOk result (Told ReadsSparql Whatever bytes.now) }
{
    let Some((closed, rest)) = table_start(bytes) else {
        return Ok(None);
    };
    if closed {
        return Ok(None);
    }
    Ok(finished(b"sparql", table_parts(alloc, rest)?))
}
