//! A sink in memory.
ghost use Rattle.std.specs.Prelude.{◌≡◌, [], Some};

use sib_io::{Failed, Sink};
use std::alloc::Global;

/// The bytes that were written since it was emptied, and how many writes found no memory.
#[derive(Drop)]
pub struct Kept {
    bytes: Vec<u8>,
    faults: u64,
}

impl Kept {
    /// No bytes.
    pub fn new(alloc: Global) -> Kept
        ensures empty { result.bytes.items ≡ [] }
    {
        Kept {
            bytes: Vec::new(alloc),
            faults: 0,
        }
    }

    /// The bytes.
    pub fn as_slice(&self) -> &[u8]
        ensures bytes { result.now ≡ self.now.bytes.items }
    {
        self.bytes.as_slice()
    }

    /// Forgets the bytes and keeps their memory for others.
    pub fn clear(&mut self)
        ensures empty { self.new.bytes.items ≡ [] }
    {
        self.bytes.clear();
    }
}

impl Sink for Kept {
    ghost given = { λ s. Some s.bytes.items };

    ghost handed = { λ s. Some s.bytes.items };

    ghost faults = { λ s. s.faults };

    fn write_all(&mut self, bytes: &[u8]) -> Result<(), Failed> {
        match self.bytes.extend_from_slice(bytes) {
            Ok(()) => Ok(()),
            Err(_) => {
                self.faults = self.faults.saturating_add(1);
                Err(Failed)
            }
        }
    }

    fn flush(&mut self) -> Result<(), Failed> {
        Ok(())
    }
}
