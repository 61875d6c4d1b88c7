//! The rows of an answer as they are printed.
ghost use Rattle.std.specs.Prelude.{ℕ, List, ◌∷◌, flat_map, Some};
ghost use Rattle.ssap_encode.specs.Sending.{Sends};
ghost use Rattle.kp_client.specs.Mirroring.{triple_row, rows_in};
ghost use Rattle.kp_talk.specs.Lines.{cell_text, row_line};

use answer_bodies::Answer;
use m3_terms::{Row, Term, Triple};
use ssap_encode::{Escaped, Out, Raw, Spell, Then};

/// What is printed one behind another of its kind.
trait Printed {
    /// The bytes that are printed for it.
    ghost text: { Self → List ℕ };

    /// Puts the bytes piece by piece.
    fn print<O: Out>(&self, out: &mut O) -> Result<(), O::Fault>
        ensures { Sends O.puts O.stops out.old out.new result (text self.now) };
}

/// Things that are printed one behind another.
#[derive(Drop)]
struct All<'a, T>(&'a [T]);

impl<T: Printed> Spell for All<'_, T> {
    ghost spelling = { λ s. flat_map T.text s.0.now };

    fn put<O: Out>(&self, out: &mut O) -> Result<(), O::Fault> {
        for item in self.0 {
            item.print(out)?;
        }
        Ok(())
    }
}

/// A cell with a term.
#[derive(Drop)]
struct Bound<'a>(&'a Term);

impl Spell for Bound<'_> {
    ghost spelling = { λ s. cell_text (Some s.0.now) };

    #[tactic(auto, unfolding(crate::specs::Lines::cell_text))]
    fn put<O: Out>(&self, out: &mut O) -> Result<(), O::Fault> {
        match self.0 {
            Term::Uri(text) => {
                Then(Then(Raw(b"<"), Escaped(text.as_bytes())), Raw(b">")).put(out)
            }
            Term::Literal(text) => {
                Then(Then(Raw(b"\""), Escaped(text.as_bytes())), Raw(b"\"")).put(out)
            }
        }
    }
}

/// A cell, which may be unbound.
#[derive(Drop)]
struct Cell<'a>(&'a Option<Term>);

impl Spell for Cell<'_> {
    ghost spelling = { λ s. cell_text s.0.now };

    #[tactic(auto, unfolding(crate::specs::Lines::cell_text))]
    fn put<O: Out>(&self, out: &mut O) -> Result<(), O::Fault> {
        match self.0 {
            Some(term) => Bound(term).put(out),
            None => out.put(b"-"),
        }
    }
}

/// A cell behind another one of its row.
impl Printed for Option<Term> {
    ghost text = { λ cell. 9 ∷ cell_text cell };

    fn print<O: Out>(&self, out: &mut O) -> Result<(), O::Fault> {
        Then(Raw(b"\t"), Cell(self)).put(out)
    }
}

impl Printed for Row {
    ghost text = { row_line };

    fn print<O: Out>(&self, out: &mut O) -> Result<(), O::Fault> {
        match self.as_slice().split_first() {
            None => out.put(b"\n"),
            Some((cell, cells)) => Then(Then(Cell(cell), All(cells)), Raw(b"\n")).put(out),
        }
    }
}

impl Printed for Triple {
    ghost text = { λ triple. row_line (triple_row triple) };

    fn print<O: Out>(&self, out: &mut O) -> Result<(), O::Fault> {
        let subject = Bound(&self.subject);
        let predicate = Then(Raw(b"\t"), Bound(&self.predicate));
        let object = Then(Raw(b"\t"), Bound(&self.object));
        Then(Then(Then(subject, predicate), object), Raw(b"\n")).put(out)
    }
}

/// The rows of an answer, a line each.
#[derive(Drop)]
pub(crate) struct RowLines<'a>(pub(crate) &'a Answer);

impl Spell for RowLines<'_> {
    ghost spelling = { λ s. flat_map row_line (rows_in s.0.now) };

    fn put<O: Out>(&self, out: &mut O) -> Result<(), O::Fault> {
        match self.0 {
            Answer::Triples(triples) => All(triples.as_slice()).put(out),
            Answer::Table { rows, .. } => All(rows.as_slice()).put(out),
        }
    }
}
