ghost use Rattle.std.specs.Prelude.{IfOk};
ghost use Rattle.std.specs.Option.{IsSome};

use kp_client::{Client, Event};
use m3_terms::Text;
use ssap_decode::Decoder;
use ssap_items::Transaction;
use ssap_shape::{Ask, Incoming, client_shape};
use std::alloc::Global;
use std::test::Fail;

/// Messages that come while the node k of the space X awaits the confirm of its first request, which asks to join, and what they
/// are to it: its confirm, one that refuses, one of another request, an indication, and one that tells neither.
const MESSAGES: [(&str, &str); 5] = [
    (
        "<SSAP_message><message_type>CONFIRM</message_type><transaction_type>JOIN</transaction_type><transaction_id>1</transaction_id><node_id>k</node_id><space_id>X</space_id><parameter name=\"status\">m3:Success</parameter></SSAP_message>",
        "confirmed",
    ),
    (
        "<SSAP_message><message_type>CONFIRM</message_type><transaction_type>JOIN</transaction_type><transaction_id>1</transaction_id><node_id>k</node_id><space_id>X</space_id><parameter name=\"status\">m3:SIB.Failure.OutOfResources</parameter></SSAP_message>",
        "faulted",
    ),
    (
        "<SSAP_message><message_type>CONFIRM</message_type><transaction_type>JOIN</transaction_type><transaction_id>2</transaction_id><node_id>k</node_id><space_id>X</space_id><parameter name=\"status\">m3:Success</parameter></SSAP_message>",
        "faulted",
    ),
    (
        "<SSAP_message><message_type>INDICATION</message_type><transaction_type>UNSUBSCRIBE</transaction_type><transaction_id>9</transaction_id><node_id>k</node_id><space_id>X</space_id><parameter name=\"subscription_id\">1</parameter><parameter name=\"status\">m3:Success</parameter></SSAP_message>",
        "passed",
    ),
    (
        "<SSAP_message><message_type>CONFIRM</message_type><transaction_type>JOIN</transaction_type><transaction_id>1</transaction_id><node_id>k</node_id><space_id>X</space_id><parameter name=\"status\">m3:Success</parameter><parameter name=\"status\">m3:Success</parameter></SSAP_message>",
        "faulted",
    ),
];

/// The client that awaits the confirm of its first request.
fn waiting(alloc: Global) -> Result<Client, Fail>
    ensures { IfOk result (λ client. IsSome client.awaited) }
{
    let mut client = Client::new(Text::read(alloc, b"X")?, Text::read(alloc, b"k")?);
    client.request(alloc, &Ask::Join, Transaction::Join)?;
    Ok(client)
}

/// What the bytes of one message tell.
fn told(alloc: Global, bytes: &[u8]) -> Result<Incoming, Fail> {
    let mut decoder = Decoder::new(alloc);
    decoder.feed(alloc, bytes)?;
    let framed = decoder.next().ok_or("no message")?;
    Ok(client_shape(alloc, &framed.envelope)?)
}

/// What the client says of a message.
fn word(mut client: Client, incoming: Incoming) -> &'static str
    requires { IsSome client.awaited }
{
    match client.take(incoming) {
        Ok(Event::Confirmed(_)) => "confirmed",
        Ok(Event::Passed(_)) => "passed",
        Err(_) => "faulted",
    }
}

fn outcome(alloc: Global, bytes: &[u8]) -> Result<&'static str, Fail> {
    let incoming = told(alloc, bytes)?;
    let client = waiting(alloc)?;
    Ok(word(client, incoming))
}

#[test]
fn the_awaited_confirm_alone_ends_the_waiting(rt: HostRuntime) -> Result<(), Fail> {
    for (given, wanted) in MESSAGES.as_slice() {
        assert_eq!(rt; outcome(rt.alloc(), given.as_bytes())?, *wanted);
    }
    Ok(())
}
