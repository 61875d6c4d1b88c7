//! Answers on lines.

use crate::fault::Fault;
use answer_bodies::Answer;
use kp_client::Mirror;
use m3_terms::{NoMemory, Rows, Term};
use sib_io::Sink;
use std::alloc::Global;

/// Prints how many changes the answer has, and the texts of its rows.
pub fn print_answer<O: Sink>(alloc: Global, mirror: &Mirror, out: &mut O) -> Result<(), Fault> {
    let applied = mirror.applied();
    out.write_all(counted(alloc, applied)?.as_bytes())?;
    if let Answer::Table { columns: _, rows } = mirror.answer() {
        print_rows(rows, out)?;
    }
    out.write_all(b"\n")?;
    out.flush()?;
    Ok(())
}

fn counted(alloc: Global, applied: u64) -> Result<String, NoMemory> {
    Ok(format!(in alloc; "after {applied} changes:")?)
}

fn print_rows<O: Sink>(rows: &Rows, out: &mut O) -> Result<(), Fault> {
    for row in rows.as_slice() {
        for cell in row.as_slice() {
            if let Some(term) = cell {
                print_term(term, out)?;
            }
        }
    }
    Ok(())
}

fn print_term<O: Sink>(term: &Term, out: &mut O) -> Result<(), Fault> {
    out.write_all(b" ")?;
    match term {
        Term::Uri(text) => out.write_all(text.as_bytes())?,
        Term::Literal(text) => out.write_all(text.as_bytes())?,
    }
    Ok(())
}
