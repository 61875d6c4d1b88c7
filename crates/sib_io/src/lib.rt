//! The outside as traits: where bytes come from and where they go, with their counts of faults.
#![tactic(auto)]

mod calls;
mod connections;
mod desk;
mod errors;
mod gathered;
mod give;
mod later;
mod memory;
mod outside;
mod piece;
mod reading;
mod real;
mod sink;
mod sure;
mod tcp;
mod threads;
mod waiting;

pub use calls::Calls;
pub use connections::{Accept, Job, Spawner};
pub use gathered::GatheredSink;
pub use later::LaterSpawner;
pub use memory::MemSource;
pub use outside::{Failed, Sink, Source};
pub use piece::PIECE_LIMIT;
pub use reading::{INPUT_LIMIT, read_at_most};
pub use real::{StdSink, StdSource};
pub use sink::MemSink;
pub use sure::{SureSink, SureSource};
pub use tcp::{ClosingStream, TcpAccept};
pub use threads::ThreadSpawner;
pub use waiting::{Connections, MemAccept};
