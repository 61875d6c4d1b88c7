//! The query that a text says.
ghost use Rattle.std.specs.Prelude.{◌≤◌, length, IfOk, IfErr};
ghost use Rattle.sparql_algebra.specs.Valid.{IsValid};
ghost use Rattle.sparql_text.specs.Faults.{Says, Refuses};
ghost use Rattle.sparql_read.specs.Reading.{IsReading};
ghost use Rattle.sparql_read.specs.Drafted.{IsSaidBy, AreDrafted};

use crate::draft::Draft;
use crate::terms::Names;
use m3_terms::NoMemory;
use sparql_algebra::Query;
use sparql_text::{Judged, Next, ReadFault, judge, next_token};
use std::alloc::Global;

/// The query that a text says, which was found to say one with these names and declarations.
fn build(alloc: Global, text: &[u8], names: Names<'_>) -> Result<Query, NoMemory>
    requires said { IsSaidBy text.now names }
    requires few { length names.variables.now ≤ 16 }
    ensures { IfOk result (Says text.now) }
{
    let mut draft = Draft::new(alloc);
    let mut left = text;
    'tokens: loop {
        match next_token(text.len(), left) {
            Next::Token { lexeme, rest, .. } => {
                draft.take(alloc, names, lexeme)?;
                left = rest;
            }
            Next::End => match draft.query(alloc, names)? {
                Some(query) => return Ok(query),
                None => unreachable!(),
            },
            Next::NoToken { .. } => unreachable!(),
        }
    }
}

/// Reads the query that a text says, in the profile of SPARQL 1.1 that docs/PROTOCOL.md has.
///
/// The text is read twice: it is judged, and where it says a query this is built, one token at a time and without recursion.
/// Beside the query at most one entry is kept for each bracket that is open. Where a fault and the end of memory come
/// together, memory decides.
pub fn read_query(alloc: Global, text: &[u8]) -> Result<Query, ReadFault>
    ensures query { IfOk result (Says text.now) }
    ensures valid { IfOk result IsValid }
    ensures fault { IfErr result (Refuses text.now) }
    ensures reading { IsReading text.now result }
{
    let judgement = judge(alloc, text)?;
    match judgement.judged {
        Judged::NotInProfile { place } => Err(ReadFault::NotInProfile { place }),
        Judged::OverLimit { which, place } => Err(ReadFault::OverLimit { which, place }),
        Judged::Fine { distinct } => {
            if !distinct {
                return Err(ReadFault::NotDistinct);
            }
            let names = Names {
                variables: judgement.variables.as_slice(),
                declared: judgement.declared.as_slice(),
            };
            Ok(build(alloc, text, names)?)
        }
    }
}
