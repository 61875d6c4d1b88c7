ghost use Rattle.std.specs.Prelude.{◌≡◌, []};
ghost use Rattle.sib_io.specs.Causes.{HasCause, Writes};
ghost use Rattle.ssap_items.specs.Canon.{canonical};
ghost use Rattle.ssap_encode.specs.Gathering.{Gathers, Fails};
ghost use Rattle.ssap_encode.specs.GatheringLaws.{gathers_nothing, gathers_further, fails_behind, fails_before};
ghost use Rattle.std.proofs.Common.{refl, ◌∙◌};

use crate::buffer::{Buffer, ROOM};
use crate::out::Out;
use crate::spell::Spell;
use sib_io::{Failed, Sink};
use ssap_items::Envelope;

/// Gathers small pieces for a sink, so that it is given few large ones.
#[derive(Drop)]
struct Gather<'a, K: Sink> {
    sink: &'a mut K,
    held: Buffer,
}

impl<K: Sink> Gather<'_, K> {
    /// Gives the sink all that is held.
    fn give(&mut self) -> Result<(), Failed>
        ensures same_reference { self.new.sink.ghost_name ≡ self.old.sink.ghost_name }
        ensures empty { self.new.held ≡ [] }
        ensures bytes { Writes (K.given self.old.sink.now) (K.given self.new.sink.now) result self.old.held }
        ensures cause { HasCause (K.faults self.old.sink.now) (K.faults self.new.sink.now) result }
    {
        let result = self.sink.write_all(self.held.as_slice());
        self.held.clear();
        result
    }

    /// Puts what has a spelling, and gives what is held at its end.
    fn put_all<T: Spell>(&mut self, spelled: &T) -> Result<(), Failed>
        requires { self.old.held ≡ [] }
        ensures same_reference { self.new.sink.ghost_name ≡ self.old.sink.ghost_name }
        ensures written { Writes (K.given self.old.sink.now) (K.given self.new.sink.now) result (T.spelling spelled.now) }
        ensures cause { HasCause (K.faults self.old.sink.now) (K.faults self.new.sink.now) result }
    {
        spelled.put(self)?;
        self.give()
    }
}

impl<K: Sink> Out for Gather<'_, K> {
    type Fault = Failed;

    ghost puts = { λ s t xs. (t.sink.ghost_name ≡ s.sink.ghost_name) × Gathers (K.given s.sink.now) (K.given t.sink.now)
        (K.faults s.sink.now) (K.faults t.sink.now) s.held t.held xs };

    ghost stops = { λ s t xs. (t.sink.ghost_name ≡ s.sink.ghost_name) × Fails (K.given s.sink.now) (K.given t.sink.now)
        (K.faults s.sink.now) (K.faults t.sink.now) s.held xs };

    fn put(&mut self, bytes: &[u8]) -> Result<(), Failed> {
        let room = self.held.room();
        if bytes.len() <= room {
            self.held.keep(bytes);
            return Ok(());
        }
        let (front, rest) = bytes.split_at(room);
        self.held.keep(front);
        self.give()?;
        if rest.len() <= ROOM {
            self.held.keep(rest);
            return Ok(());
        }
        self.sink.write_all(rest)
    }

    ghost nothing = { λ s. (refl, gathers_nothing _ _ _) };

    ghost further = { λ s t u xs ys p q. (q.0 ∙ p.0, gathers_further _ _ _ _ _ _ _ _ _ xs ys p.1 q.1) };

    ghost stops_behind = { λ s t u xs ys p q. (q.0 ∙ p.0, fails_behind _ _ _ _ _ _ _ _ xs ys p.1 q.1) };

    ghost stops_before = { λ s t xs ys p. (p.0, fails_before _ _ _ _ _ xs ys p.1) };
}

/// Writes the canonical spelling of an envelope to a sink, in pieces of at least 4,096 bytes but for the last. It takes
/// no memory, and does not flush the sink. After `Failed` the sink was given a prefix of the spelling.
pub fn write<K: Sink>(envelope: &Envelope, sink: &mut K) -> Result<(), Failed>
    ensures written { Writes (K.given sink.old) (K.given sink.new) result (canonical envelope.now) }
    ensures cause { HasCause (K.faults sink.old) (K.faults sink.new) result }
{
    write_spelled(envelope, sink)
}

/// Writes what has a spelling to a sink, as `write` does an envelope: in pieces of at least 4,096 bytes but for the last,
/// without memory and without a flush. After `Failed` the sink was given a prefix of the spelling.
pub fn write_spelled<T: Spell, K: Sink>(spelled: &T, sink: &mut K) -> Result<(), Failed>
    ensures written { Writes (K.given sink.old) (K.given sink.new) result (T.spelling spelled.now) }
    ensures cause { HasCause (K.faults sink.old) (K.faults sink.new) result }
{
    let held = Buffer::new();
    Gather { sink, held }.put_all(spelled)
}
