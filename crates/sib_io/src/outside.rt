ghost use Rattle.std.specs.Prelude.{◌≡◌, List, ℕ, Option, OnOk};
ghost use Rattle.std.specs.Io.{ReadsAtMost};
ghost use Rattle.std.specs.Io.KnownBytes.{ReadConsumes, Keeps};
ghost use Rattle.sib_io.specs.Causes.{HasCause, Writes};

/// The outside failed. Its own count of faults rose.
#[derive(Clone, Copy, Debug, PartialEq, Eq)]
pub struct Failed;

/// Where bytes come from.
pub trait Source {
    /// The bytes that are left, where the source tells them.
    ghost left: { Self → Option (List ℕ) };

    /// How many calls failed. The count never falls, and stands still at the greatest u64.
    ghost faults: { Self → ℕ };

    /// Takes the next bytes, at most as many as `into` has. Where `into` is not empty, 0 means that nothing is left.
    /// After `Failed` nothing was taken.
    fn read(&mut self, into: &mut [u8]) -> Result<usize, Failed>
        ensures within { ReadsAtMost result into.new }
        ensures bytes { ReadConsumes (left self.old) (left self.new) result into.new }
        ensures cause { HasCause (faults self.old) (faults self.new) result };
}

/// Where bytes go.
pub trait Sink {
    /// The bytes that the sink was given, where it tells them.
    ghost given: { Self → Option (List ℕ) };

    /// The bytes that the sink handed on, where it tells them. A sink that gathers bytes keeps the last of them back until it
    /// is flushed.
    ghost handed: { Self → Option (List ℕ) };

    /// How many calls failed. The count never falls, and stands still at the greatest u64.
    ghost faults: { Self → ℕ };

    /// Appends all of the bytes. After `Failed` a prefix of them was appended.
    fn write_all(&mut self, bytes: &[u8]) -> Result<(), Failed>
        ensures bytes { Writes (given self.old) (given self.new) result bytes.now }
        ensures cause { HasCause (faults self.old) (faults self.new) result };

    /// Hands on what was kept back: after `Ok` all that the sink was given is handed on. It appends nothing.
    fn flush(&mut self) -> Result<(), Failed>
        ensures bytes { Keeps (given self.old) (given self.new) }
        ensures handed { OnOk result (handed self.new ≡ given self.new) }
        ensures cause { HasCause (faults self.old) (faults self.new) result };
}
