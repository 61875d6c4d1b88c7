//! The confirms of requests.
ghost use Rattle.std.specs.Prelude.{◌≡◌, ◌<◌, IfOk, MatchOption, length};
ghost use Rattle.ssap_shape.specs.Replies.{HasFullAnswer, HasFullAnswers};
ghost use Rattle.ssap_items.specs.Canon.{canonical};
ghost use Rattle.session_core.specs.Subscriptions.{indication_bytes};
ghost use Rattle.session_core.specs.Requests.{bare as bare_of, confirm_bytes};
ghost use Rattle.session_core.specs.Prepared.{answering as answering_of, IsShort};

use crate::space::CONFIRM_LIMIT;
use answer_bodies::Answer;
use link_table::Message;
use m3_terms::NoMemory;
use ssap_items::{Envelope, Heads};
use ssap_shape::{Confirm, Indication, Status, confirm_envelope, indication_envelope};
use std::alloc::Global;

/// The confirm that tells a status alone.
pub(crate) fn bare(heads: Heads, status: Status) -> Confirm
    ensures { result ≡ bare_of heads status }
{
    Confirm {
        heads,
        status,
        subscription: None,
        answer: None,
    }
}

/// The confirm of success that brings an answer.
pub(crate) fn answering(heads: Heads, answer: Answer) -> Confirm
    ensures { result ≡ answering_of heads answer }
{
    Confirm {
        heads,
        status: Status::Success,
        subscription: None,
        answer: Some(answer),
    }
}

// A message that is ready to be sent. Its bytes are made once: the message keeps them.
fn message_of(alloc: Global, envelope: &Envelope) -> Result<Message, NoMemory>
    ensures { IfOk result (λ message. message ≡ canonical envelope.now) }
{
    let bytes = ssap_encode::to_bytes(alloc, envelope)?;
    Message::new(alloc, bytes)
}

// The same, or `None` where it would be longer than a message may be. The envelope is spelled once, and no further than that.
fn short_of(alloc: Global, envelope: &Envelope) -> Result<Option<Message>, NoMemory>
    ensures { IfOk result (λ found. MatchOption found (4194304 < length (canonical envelope.now)) (IsShort (canonical envelope.now))) }
{
    match ssap_encode::to_bytes_within(alloc, envelope, CONFIRM_LIMIT as usize)? {
        Some(bytes) => {
            let message = Message::new(alloc, bytes)?;
            Ok(Some(message))
        }
        None => Ok(None),
    }
}

/// An indication that is ready to be sent.
pub(crate) fn indication_message(
    alloc: Global,
    indication: &Indication,
) -> Result<Message, NoMemory>
    requires { HasFullAnswers indication.now }
    ensures { IfOk result (λ message. message ≡ indication_bytes indication.now) }
{
    message_of(alloc, &indication_envelope(alloc, indication)?)
}

/// The same, or `None` where it would be longer than a message may be.
pub(crate) fn short_indication(
    alloc: Global,
    indication: &Indication,
) -> Result<Option<Message>, NoMemory>
    requires { HasFullAnswers indication.now }
    ensures { IfOk result (λ found. MatchOption found (4194304 < length (indication_bytes indication.now)) (IsShort (indication_bytes indication.now))) }
{
    short_of(alloc, &indication_envelope(alloc, indication)?)
}

/// A confirm that is ready to be sent. Its bytes are made once: the message keeps them.
pub(crate) fn confirm_message(alloc: Global, confirm: &Confirm) -> Result<Message, NoMemory>
    requires { HasFullAnswer confirm.now.answer }
    ensures { IfOk result (λ message. message ≡ confirm_bytes confirm.now) }
{
    message_of(alloc, &confirm_envelope(alloc, confirm)?)
}

/// The same, or `None` where it would be longer than a message may be.
pub(crate) fn short_message(alloc: Global, confirm: &Confirm) -> Result<Option<Message>, NoMemory>
    requires { HasFullAnswer confirm.now.answer }
    ensures { IfOk result (λ found. MatchOption found (4194304 < length (confirm_bytes confirm.now)) (IsShort (confirm_bytes confirm.now))) }
{
    short_of(alloc, &confirm_envelope(alloc, confirm)?)
}
