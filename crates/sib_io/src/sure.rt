ghost use Rattle.std.specs.Prelude.{◌≡◌, Some, None};

use crate::give::give;
use crate::{Failed, Sink, Source};
use m3_terms::Bytes;
use std::marker::Model;

/// A source over bytes in memory that never fails.
#[derive(Drop)]
pub struct SureSource {
    bytes: Vec<u8>,
    at: usize,
}

impl Model for SureSource {
    ghost use Rattle.std.specs.Prelude.{List, ℕ, drop, ◌≤◌, vec_len};

    ghost Value = { List ℕ };

    ghost view = { λ s. drop s.at s.bytes.items };

    ghost invariant = { λ s. s.at ≤ vec_len s.bytes };
}

impl SureSource {
    /// A source of these bytes.
    pub fn new(bytes: Bytes) -> SureSource
        ensures { result ≡ bytes }
    {
        SureSource {
            bytes: bytes.into_vec(),
            at: 0,
        }
    }
}

impl Source for SureSource {
    ghost left = { λ s. Some s };

    ghost faults = { λ _. 0 };

    fn read(&mut self, into: &mut [u8]) -> Result<usize, Failed> {
        let count = give(&self.bytes[self.at..], into);
        self.at += count;
        Ok(count)
    }
}

/// A sink that never fails. It drops what it is given, since keeping it could run out of memory, and tells nothing.
#[derive(Drop)]
pub struct SureSink;

impl SureSink {
    /// A sink that takes no memory.
    pub fn new() -> SureSink {
        SureSink
    }
}

impl Sink for SureSink {
    ghost given = { λ _. None };

    ghost handed = { λ _. None };

    ghost faults = { λ _. 0 };

    fn write_all(&mut self, _bytes: &[u8]) -> Result<(), Failed> {
        Ok(())
    }

    fn flush(&mut self) -> Result<(), Failed> {
        Ok(())
    }
}
