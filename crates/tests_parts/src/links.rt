//! Links are opened, sent to, ended, lost and taken from, up to the limits.

use link_table::{LINK_LIMIT, LinkState, Links, Message, OpenLink, PENDING_LIMIT};
use m3_terms::Bytes;
use std::alloc::Global;
use std::test::Fail;

// What is done with a link: it opens, is sent a message, ends, is lost, or gives its oldest message.
const OPEN: u8 = b'+';

const SEND: u8 = b'>';

const END: u8 = b'-';

const LOSE: u8 = b'!';

const TAKE: u8 = b'<';

const MOST: usize = PENDING_LIMIT as usize;

// A step on the link of a number, with the length of the message that is sent or taken, if any. Then the link's state, how
// many messages wait on it, and how many links count.
type Row = (u8, u32, usize, LinkState, usize, u32);

const ROWS: &[Row] = &[
    (OPEN, 1, 0, LinkState::Open, 0, 1),
    (OPEN, 2, 0, LinkState::Open, 0, 2),
    (SEND, 2, 5, LinkState::Open, 1, 2),
    (SEND, 2, 7, LinkState::Open, 2, 2),
    (TAKE, 1, 0, LinkState::Open, 0, 2),
    (TAKE, 2, 5, LinkState::Open, 1, 2),
    (END, 2, 0, LinkState::Ended, 1, 2),
    (SEND, 2, 9, LinkState::Ended, 1, 2),
    (TAKE, 2, 7, LinkState::Gone, 0, 1),
    (TAKE, 2, 0, LinkState::Gone, 0, 1),
    (OPEN, 3, 0, LinkState::Open, 0, 2),
    (SEND, 3, 5, LinkState::Open, 1, 2),
    (LOSE, 3, 0, LinkState::Gone, 0, 1),
    (SEND, 1, MOST, LinkState::Open, 1, 1),
    (SEND, 1, 1, LinkState::Overrun, 1, 1),
    (TAKE, 1, MOST, LinkState::Gone, 0, 0),
    (LOSE, 4, 0, LinkState::Never, 0, 0),
    (END, 0, 0, LinkState::Never, 0, 0),
];

fn message(alloc: Global, len: usize) -> Result<Message, Fail> {
    let bytes = Bytes::from_vec(vec![in alloc; 0; len]?);
    if bytes.is_empty() {
        return Err("no bytes".into());
    }
    Ok(Message::new(alloc, bytes)?)
}

// The length of the message that waits longest, or 0 where none waits.
fn taken(links: &mut Links, number: u32) -> usize {
    match links.take(number) {
        Some(bytes) => bytes.len(),
        None => 0,
    }
}

// Does a step, and says whether the number that opened or the message that was taken is the wanted one.
fn step(alloc: Global, links: &mut Links, row: &Row) -> Result<bool, Fail> {
    let (kind, number, len, ..) = *row;
    if kind == OPEN {
        return Ok(links.open()? == Some(number));
    }
    if kind == TAKE {
        return Ok(taken(links, number) == len);
    }
    if kind == SEND {
        links.send(number, message(alloc, len)?);
    } else if kind == END {
        links.end(number);
    } else if kind == LOSE {
        links.lose(number);
    }
    Ok(true)
}

#[test]
fn links_from_their_opening_to_their_end(rt: HostRuntime) -> Result<(), Fail> {
    let mut links = Links::new(rt.alloc());
    for row in ROWS {
        assert!(rt; step(rt.alloc(), &mut links, row)?);
        let seen = (links.state(row.1), links.waiting(row.1), links.counted());
        assert_eq!(rt; seen, (row.3, row.4, row.5));
    }
    Ok(())
}

#[test]
fn numbers_are_not_given_again(rt: HostRuntime) -> Result<(), Fail> {
    let mut links = Links::new(rt.alloc());
    for number in 1..=LINK_LIMIT as u32 {
        assert_eq!(rt; links.open()?, Some(number));
    }
    assert_eq!(rt; links.open()?, None);
    links.end(7);
    assert_eq!(rt; links.open()?, Some(257));
    assert_eq!(rt; links.open()?, None);
    Ok(())
}

fn told(number: u32, waiting: usize) -> OpenLink {
    OpenLink { number, waiting }
}

#[test]
fn open_links_are_told_by_their_numbers(rt: HostRuntime) -> Result<(), Fail> {
    let mut links = Links::new(rt.alloc());
    assert!(rt; links.open_links(rt.alloc())?.is_empty());
    for number in 1..=4 {
        assert_eq!(rt; links.open()?, Some(number));
    }
    links.send(2, message(rt.alloc(), 5)?);
    links.send(3, message(rt.alloc(), 7)?);
    links.end(3);
    links.lose(1);
    let open = links.open_links(rt.alloc())?;
    let wanted = [told(2, 1), told(4, 0)];
    assert_eq!(rt; open.as_slice(), wanted.as_slice());
    Ok(())
}
