ghost use Rattle.std.specs.Prelude.{◌≡◌, ◌≢◌, ◌⊎◌, ℕ, List};
ghost use Rattle.sib_io.specs.Causes.{Rose};
ghost use Rattle.kp_talk.specs.declared.errand.Errand.{Errand as OfErrand};
ghost use Rattle.kp_talk.specs.Words.{texts, IsForm, IsErrandOf};
ghost use Rattle.kp_talk.specs.Ending.{outside};
ghost use Rattle.talk_laws.specs.Truth.{asks_text};
ghost use Rattle.sib_app.specs.KpRun.{Runs, Means, PrintsTruth};

use kp_talk::{Ending, errand_of, talk};
use sib_io::{Sink, Source};
use std::alloc::Global;

/// Runs the errand of a client that the words name, with a broker behind a source and a sink that are lent to it, and answers
/// its exit status.
///
/// | Words | What the client does, between joining SPACE as NODE and leaving it |
/// |---|---|
/// | `insert SPACE NODE SUBJECT PREDICATE KIND OBJECT` | inserts the triple of two uris and a term; KIND is `uri` or `literal` and says which OBJECT is |
/// | `query SPACE NODE TEXT` | asks the query TEXT in SPARQL, and prints the answer |
/// | `watch SPACE NODE TEXT N` | subscribes to TEXT, prints the first answer, prints the answer after each of N changes, and unsubscribes |
///
/// SPACE and NODE are texts of 1 to 1,024 bytes, a uri is one of 1 to 4,096 bytes, a literal one of 0 to 4,096, and N is from 0
/// to 1,000,000 in decimal without a leading zero.
///
/// The requests go to `sink`, the broker's messages come from `source`, and lines go to `out`. A line is printed before the
/// request that follows it is written. Both sinks are flushed before each read, which may wait, and at the end.
///
/// | Line | What it says |
/// |---|---|
/// | `ok` | the insert was confirmed |
/// | `answer K R`, and R lines for its rows | the answer after K changes. The cells of a row have tabs between them: a uri in angle brackets, a literal in quotes, or `-` where none is bound |
/// | `refused STATUS` | the last line: a confirm with this status, which is not success |
/// | `ended STATUS` | the last line: the subscription ended with this status |
/// | `ended` | the last line: the input ended between messages |
/// | `broken subscription W G` | the last line: a change of subscription G came, where W is the client's |
/// | `broken gap W G` | the last line: a change came under the number G, where W is next |
/// | `broken form` | the last line: a change of another form than the answer's |
/// | `broken conflict` | the last line: a change that conflicts with the answer |
/// | `broken message` | the last line: a message that was not awaited, or that lacks what it must tell |
/// | `broken stream P syntax` | the last line: no message goes on with the byte P of the input |
/// | `broken stream P long` | the last line: the message that begins at byte P has more than 4,194,304 bytes |
/// | `broken stream P cut` | the last line: the input ended inside the message that begins at byte P |
///
/// | Status | Where |
/// |---|---|
/// | 0 | all confirms came, with success |
/// | 2 | the words are no form; nothing was read, written or printed, and no memory was taken |
/// | 4 | the source failed |
/// | 5 | a sink failed, at a write or a flush |
/// | 6 | out of memory |
/// | 7 | 1,099,511,627,776 bytes were taken, and the talk waits for more |
/// | 8 | a request was refused, or the subscription ended |
/// | 9 | what came broke the talk |
/// | 10 | the input ended between messages |
pub fn kp_run<S: Source, K: Sink, O: Sink>(
    alloc: Global,
    words: &[String],
    source: &mut S,
    sink: &mut K,
    out: &mut O,
) -> u8
    // Which words run: no others, and these always.
    ensures form { result ≡ 2 → ¬ IsForm (texts words.now) }
    ensures no_form { ¬ IsForm (texts words.now) → result ≡ 2 }
    ensures untouched { ¬ IsForm (texts words.now) → (source.new ≡ source.old) × (sink.new ≡ sink.old) × (out.new ≡ out.old) }

    // What was read, written and printed at each status.
    ensures run { (errand : OfErrand) → IsErrandOf (texts words.now) errand → Runs errand
        (outside (S.left source.old) (K.given sink.old) (O.given out.old) (S.faults source.old) (K.faults sink.old) (O.faults out.old))
        (outside (S.left source.new) (K.given sink.new) (O.given out.new) (S.faults source.new) (K.faults sink.new) (O.faults out.new)) result }
    ensures means { (errand : OfErrand) → IsErrandOf (texts words.now) errand → Means errand
        (outside (S.left source.old) (K.given sink.old) (O.given out.old) (S.faults source.old) (K.faults sink.old) (O.faults out.old))
        (outside (S.left source.new) (K.given sink.new) (O.given out.new) (S.faults source.new) (K.faults sink.new) (O.faults out.new)) result }

    // Where a broker heard the requests and sent what was read, the printed answers are true.
    ensures truth { (errand : OfErrand) (text : List ℕ) → IsErrandOf (texts words.now) errand → asks_text errand.task text → PrintsTruth errand text
        (outside (S.left source.old) (K.given sink.old) (O.given out.old) (S.faults source.old) (K.faults sink.old) (O.faults out.old))
        (outside (S.left source.new) (K.given sink.new) (O.given out.new) (S.faults source.new) (K.faults sink.new) (O.faults out.new)) }

    // Where the outside is to blame, and where it isn't.
    ensures read_fault { result ≡ 4 → Rose (S.faults source.old) (S.faults source.new) }
    ensures write_fault { result ≡ 5 → Rose (K.faults sink.old) (K.faults sink.new) ⊎ Rose (O.faults out.old) (O.faults out.new) }
    ensures faultless { result ≢ 4 → result ≢ 5 → (S.faults source.new ≡ S.faults source.old) × (K.faults sink.new ≡ K.faults sink.old) × (O.faults out.new ≡ O.faults out.old) }
    ensures handed { result ≢ 2 → result ≢ 5 → result ≢ 6 → (K.handed sink.new ≡ K.given sink.new) × (O.handed out.new ≡ O.given out.new) }
{
    match errand_of(alloc, words) {
        Ok(found) => match found {
            Some(errand) => talk(alloc, errand, source, sink, out).status(),
            None => 2,
        },
        Err(_) => Ending::NoMemory.status(),
    }
}
