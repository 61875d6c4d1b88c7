//! What a turn asks of a machine.
ghost use Rattle.std.specs.Prelude.{◌≡◌, ◌<◌, ◌++◌, List, [], ◌∷◌, length, IsOk, MatchResult};

use m3_terms::{NoMemory, Steps};
use std::alloc::Global;
use std::sync::ledger::Ledger;
use std::thread::Threads;

/// A machine that answers calls one after the other.
pub trait Machine: Drop {
    type Call: Drop;

    type Reply;

    /// Plain data that no call changes.
    type Root;

    /// The machine's root.
    ghost root: { Self → Self.Root };

    /// Some root, which no machine need have.
    ghost some_root: { Self.Root };

    /// The machine stands for these calls: it is as these calls, in this order, leave it.
    ghost stands: { Self → List Self.Call → Type 0 };

    /// The reply that is due to a call after these.
    ghost replies: { Self.Root → List Self.Call → Self.Call → Self.Reply };

    /// A step with this call never answers out of memory.
    ghost lean: { Self.Call → Type 0 };

    /// Answers a call. After an error the machine stands for the calls that it stood for.
    fn step<R: Threads + Sync, L: Ledger>(
        &mut self,
        alloc: Global,
        rt: &R,
        call: Self::Call,
        steps: &mut Steps<L>,
    ) -> Result<Self::Reply, NoMemory>
        requires { (calls : List Self.Call) × (stands self.old calls × (length calls < 4611686018427387904)) }
        ensures same_root { root self.new ≡ root self.old }
        ensures history { (calls : List Self.Call) → stands self.old calls → length calls < 4611686018427387904
            → MatchResult result (λ reply. stands self.new (calls ++ call ∷ []) × (reply ≡ replies (root self.old) calls call)) (λ _. stands self.new calls) }
        ensures lean_succeeds { lean call → IsOk result };
}
