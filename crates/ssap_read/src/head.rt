ghost use Rattle.ssap_grammar.specs.Front.{OneOf};
ghost use Rattle.ssap_grammar.specs.Head.{message_types, transactions, ReadsMessageType, ReadsTransactionType};
ghost use Rattle.ssap_text.specs.Ends.{BeginsFinish};
ghost use Rattle.ssap_read.specs.Told.{Told, Whatever};
ghost use Rattle.ssap_read.specs.Tags.{ReadsChosen};

use crate::element::{finished, start};
use ssap_items::{MessageType, Transaction};
use ssap_text::skip_spaces;

/// The word of a message type.
fn message_word(bytes: &[u8]) -> Option<(MessageType, &[u8])>
    ensures { Told (OneOf message_types) Whatever bytes.now result }
{
    if let Some(rest) = bytes.strip_prefix(b"REQUEST") {
        return Some((MessageType::Request, rest));
    }
    if let Some(rest) = bytes.strip_prefix(b"CONFIRM") {
        return Some((MessageType::Confirm, rest));
    }
    if let Some(rest) = bytes.strip_prefix(b"INDICATION") {
        return Some((MessageType::Indication, rest));
    }
    None
}

/// The word of a transaction.
fn transaction_word(bytes: &[u8]) -> Option<(Transaction, &[u8])>
    ensures { Told (OneOf transactions) Whatever bytes.now result }
{
    if let Some(rest) = bytes.strip_prefix(b"JOIN") {
        return Some((Transaction::Join, rest));
    }
    if let Some(rest) = bytes.strip_prefix(b"LEAVE") {
        return Some((Transaction::Leave, rest));
    }
    if let Some(rest) = bytes.strip_prefix(b"INSERT") {
        return Some((Transaction::Insert, rest));
    }
    if let Some(rest) = bytes.strip_prefix(b"REMOVE") {
        return Some((Transaction::Remove, rest));
    }
    if let Some(rest) = bytes.strip_prefix(b"UPDATE") {
        return Some((Transaction::Update, rest));
    }
    if let Some(rest) = bytes.strip_prefix(b"QUERY") {
        return Some((Transaction::Query, rest));
    }
    if let Some(rest) = bytes.strip_prefix(b"SUBSCRIBE") {
        return Some((Transaction::Subscribe, rest));
    }
    if let Some(rest) = bytes.strip_prefix(b"UNSUBSCRIBE") {
        return Some((Transaction::Unsubscribe, rest));
    }
    None
}

/// The word of a message type with white space around it.
fn message_content(bytes: &[u8]) -> Option<(MessageType, &[u8])>
    ensures { Told (ReadsChosen message_types) BeginsFinish bytes.now result }
{
    let (value, rest) = message_word(skip_spaces(bytes))?;
    Some((value, skip_spaces(rest)))
}

/// The word of a transaction with white space around it.
fn transaction_content(bytes: &[u8]) -> Option<(Transaction, &[u8])>
    ensures { Told (ReadsChosen transactions) BeginsFinish bytes.now result }
{
    let (value, rest) = transaction_word(skip_spaces(bytes))?;
    Some((value, skip_spaces(rest)))
}

/// The element of a message type. It has no empty form.
pub fn message_type(bytes: &[u8]) -> Option<(MessageType, &[u8])>
    ensures { Told ReadsMessageType Whatever bytes.now result }
{
    let (closed, rest) = start(b"message_type", bytes)?;
    if closed {
        return None;
    }
    finished(b"message_type", message_content(rest))
}

/// The element of a transaction. It has no empty form.
pub fn transaction_type(bytes: &[u8]) -> Option<(Transaction, &[u8])>
    ensures { Told ReadsTransactionType Whatever bytes.now result }
{
    let (closed, rest) = start(b"transaction_type", bytes)?;
    if closed {
        return None;
    }
    finished(b"transaction_type", transaction_content(rest))
}
