//! What a broker sends, message by message.
ghost use Rattle.std.specs.Prelude.{IfOk, IfSome};
ghost use Rattle.ssap_shape.specs.Sendable.{IsSoundIncoming};

use crate::fault::Fault;
use sib_io::Source;
use ssap_decode::{Decoder, Stop};
use ssap_shape::{Incoming, client_shape, told_is_sound};
use std::alloc::Global;

/// The broker's bytes, and the decoder that finds the messages in them.
#[derive(Drop)]
pub struct Link<S: Source + Drop> {
    source: S,
    decoder: Decoder,
}

impl<S: Source + Drop> Link<S> {
    /// A link on which nothing came yet. The source should be buffered, since it is read a byte at a time.
    pub fn new(alloc: Global, source: S) -> Link<S> {
        Link {
            source,
            decoder: Decoder::new(alloc),
        }
    }

    /// What the next message tells, or `None` where the bytes end between messages.
    pub fn next(&mut self, alloc: Global) -> Result<Option<Incoming>, Fault>
        ensures { IfOk result (λ told. IfSome told IsSoundIncoming) }
    {
        told_is_sound();
        let mut byte = [0u8; 1];
        for _ in 0..u64::MAX {
            if self.source.read(&mut byte)? == 0 {
                self.decoder.end()?;
                return Ok(None);
            }
            self.feed(alloc, &byte)?;
            if let Some(framed) = self.decoder.next() {
                return Ok(Some(client_shape(alloc, &framed.envelope)?));
            }
        }
        Err(Fault::Over)
    }

    // Gives a byte to the decoder, which takes fewer than 2^63 of them.
    fn feed(&mut self, alloc: Global, byte: &[u8; 1]) -> Result<(), Fault> {
        if self.decoder.taken() > u64::MAX / 4 {
            return Err(Fault::Over);
        }
        self.decoder.feed(alloc, byte)?;
        Ok(())
    }
}
