//! Laws of mirrors. Each function does nothing: its contract is the law.

ghost use Rattle.kp_client.specs.MirrorExamples.{Applied, Skipped, Foreign, Absent, Doubled, Reshaped};
ghost use Rattle.kp_client.specs.MirrorLaws.{MirrorsFold, FormsDiffer, RefusalsAreExact};

/// After differences of which none was refused, the answer of a mirror is what they fold the first answer into, and the
/// mirror counts them.
pub fn mirrors_fold()
    ensures { MirrorsFold }
{}

/// The form of triples, told as columns, is the form of no table whose columns differ.
pub fn forms_differ()
    ensures { FormsDiffer }
{}

/// Each refusal is told exactly where it holds in plain words: the subscriptions differ; or else the number is not the next
/// one; or else a side has another form than the answer; or else an obsolete row is not there, or an added row is.
pub fn refusals_are_exact()
    ensures { RefusalsAreExact }
{}

/// A mirror of one column with the rows `a` and `b`: a difference that is applied, and some that are refused.
pub fn worked_examples()
    ensures applied { Applied }
    ensures skipped { Skipped }
    ensures foreign { Foreign }
    ensures absent { Absent }
    ensures doubled { Doubled }
    ensures reshaped { Reshaped }
{}
