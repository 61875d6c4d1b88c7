//! Messages from their spellings, for the other tests.
use m3_terms::Bytes;
use ssap_encode::to_bytes;
use ssap_items::Envelope;
use ssap_read::read_envelope;
use std::alloc::Global;
use std::test::Fail;

/// The envelope that the bytes spell.
pub fn envelope(alloc: Global, bytes: &[u8]) -> Result<Envelope, Fail> {
    Ok(read_envelope(alloc, bytes)?.ok_or("no message")?)
}

/// Some bytes, then a piece so often, and then more bytes.
pub fn repeated(
    alloc: Global,
    before: &[u8],
    piece: &[u8],
    count: usize,
    after: &[u8],
) -> Result<Vec<u8>, Fail> {
    let mut bytes = Vec::from_slice(alloc, before)?;
    for _ in 0..count {
        bytes.extend_from_slice(piece)?;
    }
    bytes.extend_from_slice(after)?;
    Ok(bytes)
}

/// The canonical spelling of an envelope.
pub fn spelling(alloc: Global, envelope: &Envelope) -> Result<Bytes, Fail> {
    Ok(to_bytes(alloc, envelope)?)
}
