ghost use Rattle.std.specs.Prelude.{ℕ, IfOk};
ghost use Rattle.sib_replay.specs.Doing.{seen};
ghost use Rattle.replay_trial.specs.Trial.{IsTrial, Outcome};

use m3_terms::NoMemory;
use sib_io::Sink;
use sib_replay::Ending;

/// Writes the output, where it could be made. It does not flush the sink.
pub fn write_output<K: Sink>(sink: &mut K, output: Result<Vec<u8>, NoMemory>) -> Ending
    ensures { (updates : ℕ) → IfOk output (λ output. IsTrial updates output.items)
        → Outcome updates (seen (K.given sink.old) (K.faults sink.old) 0) (seen (K.given sink.new) (K.faults sink.new) 0) result }
{
    match output {
        Ok(output) => match sink.write_all(&output) {
            Ok(()) => Ending::Done,
            Err(_) => Ending::WriteFault,
        },
        Err(_) => Ending::NoMemory,
    }
}
