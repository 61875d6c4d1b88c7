//! Laws of the machine and the grammar. Each function does nothing: its contract is the law.

ghost use Rattle.ssap_accepts.specs.Laws.{AcceptsSpelled, AcceptedSpells, ViabilityIsDecided, WholesExist, MessagesExist, PlacesExist, EndsExist};

/// The machine accepts the spellings of envelopes and no other bytes.
pub fn machine_reads_messages()
    ensures spelled { AcceptsSpelled }
    ensures accepted { AcceptedSpells }
{}

/// Of all bytes it can be found whether some stream begins with them.
pub fn viability_is_decided()
    ensures { ViabilityIsDecided }
{}

/// All bytes have a whole, messages and a place, so what is said of them is said of some; and viable ones end behind a
/// message or inside one.
pub fn wholes_exist()
    ensures wholes { WholesExist }
    ensures messages { MessagesExist }
    ensures places { PlacesExist }
    ensures ends { EndsExist }
{}
