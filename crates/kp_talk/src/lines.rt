//! What a client prints.
ghost use Rattle.std.specs.Prelude.{◌≡◌, List, ℕ, Option, [], ◌∷◌, ◌++◌, length, codes, IfOk};
ghost use Rattle.std.specs.Fmt.{decimal};
ghost use Rattle.kp_client.specs.Mirroring.{rows_in};
ghost use Rattle.ssap_shape.specs.Replies.{status_word};
ghost use Rattle.kp_talk.specs.Lines.{line_bytes, answer_lines, finish_line, numbers_line, break_word};
ghost use Rattle.kp_talk.specs.Talk.{Inserted};
ghost use Rattle.kp_talk.specs.Saying.{outlets, Does};

use crate::rows::RowLines;
use crate::{Break, Ending, Finish};
use answer_bodies::Answer;
use m3_terms::NoMemory;
use sib_io::Sink;
use ssap_encode::{Raw, Spell, Then, write_spelled};
use ssap_shape::Status;
use std::alloc::Global;

/// Prints that a triple was inserted.
#[tactic(auto, unfolding(crate::specs::Lines::line_bytes))]
pub(crate) fn print_inserted<O: Sink>(out: &mut O) -> Result<(), Ending>
    ensures { (written : Option (List ℕ)) (writes : ℕ) → Does (outlets written (O.given out.old) writes (O.faults out.old)) (outlets written (O.given out.new) writes (O.faults out.new))
        result [] (line_bytes Inserted) }
{
    print(&Raw(b"ok\n"), out)
}

/// Prints the answer after so many changes, with its rows.
#[tactic(auto, unfolding(crate::specs::Lines::answer_lines))]
pub(crate) fn print_answer<O: Sink>(
    alloc: Global,
    count: u64,
    answer: &Answer,
    out: &mut O,
) -> Result<(), Ending>
    ensures { (written : Option (List ℕ)) (writes : ℕ) → Does (outlets written (O.given out.old) writes (O.faults out.old)) (outlets written (O.given out.new) writes (O.faults out.new))
        result [] (answer_lines count answer.now) }
{
    let head = head_of(alloc, count, answer)?;
    print(&Then(Raw(&head), RowLines(answer)), out)
}

/// Prints how a talk finished, if that has a line.
#[tactic(auto, unfolding(crate::specs::Lines::finish_line))]
pub(crate) fn print_finish<O: Sink>(
    alloc: Global,
    finish: Finish,
    out: &mut O,
) -> Result<(), Ending>
    ensures { (written : Option (List ℕ)) (writes : ℕ) → Does (outlets written (O.given out.old) writes (O.faults out.old)) (outlets written (O.given out.new) writes (O.faults out.new))
        result [] (finish_line finish) }
{
    match finish {
        Finish::Done => Ok(()),
        Finish::Refused(status) => print_status(b"refused ", status, out),
        Finish::Ended(status) => print_status(b"ended ", status, out),
        Finish::BrokenSubscription { want, got } => print_numbers(
            alloc,
            "broken subscription",
            want,
            got,
            out,
        ),
        Finish::BrokenGap { want, got } => print_numbers(alloc, "broken gap", want, got, out),
        Finish::BrokenForm => print(&Raw(b"broken form\n"), out),
        Finish::BrokenConflict => print(&Raw(b"broken conflict\n"), out),
        Finish::BrokenMessage => print(&Raw(b"broken message\n"), out),
        Finish::BrokenStream { place, kind } => print_stream(alloc, place, word_of(kind), out),
        Finish::Over => print(&Raw(b"ended\n"), out),
    }
}

// Prints what has a spelling.
fn print<T: Spell, O: Sink>(spelled: &T, out: &mut O) -> Result<(), Ending>
    ensures { (written : Option (List ℕ)) (writes : ℕ) → Does (outlets written (O.given out.old) writes (O.faults out.old)) (outlets written (O.given out.new) writes (O.faults out.new))
        result [] (T.spelling spelled.now) }
{
    Ok(write_spelled(spelled, out)?)
}

// Prints a line with a status behind these words.
fn print_status<O: Sink>(words: &[u8], status: Status, out: &mut O) -> Result<(), Ending>
    ensures { (written : Option (List ℕ)) (writes : ℕ) → Does (outlets written (O.given out.old) writes (O.faults out.old)) (outlets written (O.given out.new) writes (O.faults out.new))
        result [] (words.now ++ status_word status ++ 10 ∷ []) }
{
    print(
        &Then(Then(Raw(words), Raw(status.as_bytes())), Raw(b"\n")),
        out,
    )
}

// Prints a line with two numbers behind these words.
#[tactic(auto, unfolding(crate::specs::Lines::numbers_line))]
fn print_numbers<O: Sink>(
    alloc: Global,
    words: &str,
    want: u64,
    got: u64,
    out: &mut O,
) -> Result<(), Ending>
    ensures { (written : Option (List ℕ)) (writes : ℕ) → Does (outlets written (O.given out.old) writes (O.faults out.old)) (outlets written (O.given out.new) writes (O.faults out.new))
        result [] (numbers_line words.now want got) }
{
    let Ok(line) = format!(in alloc; "{words} {want} {got}\n") else {
        return Err(Ending::NoMemory);
    };
    print(&Raw(line.as_bytes()), out)
}

// Prints the line of a stream that is broken at this place, with the word for how.
fn print_stream<O: Sink>(alloc: Global, place: u64, word: &str, out: &mut O) -> Result<(), Ending>
    ensures { (written : Option (List ℕ)) (writes : ℕ) → Does (outlets written (O.given out.old) writes (O.faults out.old)) (outlets written (O.given out.new) writes (O.faults out.new))
        result [] (codes "broken stream " ++ decimal place ++ codes " " ++ word.now ++ 10 ∷ []) }
{
    let Ok(line) = format!(in alloc; "broken stream {place} {word}\n") else {
        return Err(Ending::NoMemory);
    };
    print(&Raw(line.as_bytes()), out)
}

// The line before the rows of an answer.
fn head_of(alloc: Global, count: u64, answer: &Answer) -> Result<Vec<u8>, NoMemory>
    ensures { IfOk result (λ line. line.items ≡ codes "answer " ++ decimal count ++ codes " " ++ decimal (length (rows_in answer.now)) ++ 10 ∷ []) }
{
    let rows = match answer {
        Answer::Triples(triples) => triples.len(),
        Answer::Table { rows, .. } => rows.len(),
    };
    Ok(format!(in alloc; "answer {count} {rows}\n")?.into_bytes())
}

// The word for how a stream is broken.
#[tactic(auto, unfolding(crate::specs::Lines::break_word))]
fn word_of(kind: Break) -> &'static str
    ensures { result.now ≡ break_word kind }
{
    match kind {
        Break::Syntax => "syntax",
        Break::Long => "long",
        Break::Cut => "cut",
    }
}
