ghost use Rattle.std.specs.Prelude.{IfOk};
ghost use Rattle.ssap_read.specs.Pieces.{ToldPiece};

use crate::head::{message_type, transaction_type};
use crate::parameter::parameter;
use crate::text::text_element;
use m3_terms::{NoMemory, Text};
use ssap_items::{MessageType, Param, Transaction};
use std::alloc::Global;

/// A piece of a message: one of the five headers, or a parameter.
#[derive(Debug, Drop)]
pub enum Piece {
    MessageType(MessageType),
    TransactionType(Transaction),
    TransactionId(Text),
    NodeId(Text),
    SpaceId(Text),
    Parameter(Param),
}

/// The element of a piece.
pub fn read_piece<'a>(alloc: Global, bytes: &'a [u8]) -> Result<Option<(Piece, &'a [u8])>, NoMemory>
    ensures { IfOk result (ToldPiece bytes.now) }
{
    if let Some((value, rest)) = message_type(bytes) {
        return Ok(Some((Piece::MessageType(value), rest)));
    }
    if let Some((value, rest)) = transaction_type(bytes) {
        return Ok(Some((Piece::TransactionType(value), rest)));
    }
    if let Some((text, rest)) = text_element(alloc, b"transaction_id", bytes)? {
        return Ok(Some((Piece::TransactionId(text), rest)));
    }
    if let Some((text, rest)) = text_element(alloc, b"node_id", bytes)? {
        return Ok(Some((Piece::NodeId(text), rest)));
    }
    if let Some((text, rest)) = text_element(alloc, b"space_id", bytes)? {
        return Ok(Some((Piece::SpaceId(text), rest)));
    }
    if let Some((param, rest)) = parameter(alloc, bytes)? {
        return Ok(Some((Piece::Parameter(param), rest)));
    }
    Ok(None)
}
