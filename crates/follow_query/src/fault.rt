use kp_client::{ClientFault, MirrorFault};
use m3_terms::{NoMemory, TermFault};
use sib_io::Failed;
use ssap_decode::Stop;

/// Why the program stops.
#[derive(Debug, Drop)]
pub enum Fault {
    /// A read or a write failed.
    Outside,
    /// The broker's bytes are no stream of messages.
    Stream(Stop),
    /// The broker refused a request, or sent what is not awaited.
    Client(ClientFault),
    /// A change does not fit the answer.
    Mirror(MirrorFault),
    /// A message came that tells no change, or the confirm of the subscription tells no answer.
    Stray,
    /// The broker's bytes ended, or the subscription did.
    Over,
    /// Out of memory.
    NoMemory,
}

impl From<Failed> for Fault {
    fn from(_failed: Failed) -> Fault {
        Fault::Outside
    }
}

impl From<Stop> for Fault {
    fn from(stop: Stop) -> Fault {
        Fault::Stream(stop)
    }
}

impl From<ClientFault> for Fault {
    fn from(fault: ClientFault) -> Fault {
        Fault::Client(fault)
    }
}

impl From<MirrorFault> for Fault {
    fn from(fault: MirrorFault) -> Fault {
        Fault::Mirror(fault)
    }
}

impl From<NoMemory> for Fault {
    fn from(_refused: NoMemory) -> Fault {
        Fault::NoMemory
    }
}

// The texts of this program are terms, so nothing but memory can fail.
impl From<TermFault> for Fault {
    fn from(_fault: TermFault) -> Fault {
        Fault::NoMemory
    }
}
