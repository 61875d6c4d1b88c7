ghost use Rattle.std.specs.Prelude.{◌≡◌, ◌≤◌, [], None, OnErr, IfOk, length, option_to_list};
ghost use Rattle.std.specs.Option.{option_copied};
ghost use Rattle.slab.specs.Slab.{get, HasRoomFor};
ghost use Rattle.link_table.specs.Links.{changed, sent, ended, lost, taken, state_of, pending_of, open_links, counted, oldest, Opens, AreLinks};
ghost use Rattle.link_table.specs.Table.{entry_in, open_in, index_left, IsIndex, TakesOut, PutsBack};

use crate::entry::Entry;
use crate::index::Index;
use crate::{LinkState, Message, OpenLink};
use m3_terms::{Bytes, NoMemory};
use slab::Slab;
use std::alloc::Global;
use std::marker::Model;

/// The most links that may count. A link counts while it is open or a message waits on it.
pub const LINK_LIMIT: usize = 256;

/// The most bytes that may wait on a link.
pub const PENDING_LIMIT: u64 = 8_388_608;

/// The links of a space, numbered from 1 in the order in which they open. No number is used again.
#[derive(Drop)]
pub struct Links {
    // The links that count. A link that is gone has no slot, so it takes no memory.
    slots: Slab<Entry>,
    // Which slot each of them has.
    index: Index,
    opened: u32,
    alloc: Global,
}

impl Model for Links {
    ghost use Rattle.std.specs.Prelude.{List};
    ghost use Rattle.link_table.specs.Links.{Link};

    ghost Value = { List Link };

    ghost use Rattle.link_table.specs.Table.{links_to, IsTable, IsIndex};

    ghost view = { λ l. links_to l.slots.slots l.opened };

    ghost invariant = { λ l. IsTable l.slots l.opened × IsIndex l.slots.slots l.index };
}

impl Links {
    /// No links. It takes no memory.
    pub fn new(alloc: Global) -> Links
        ensures { result ≡ [] }
    {
        Links {
            slots: Slab::new(alloc),
            index: Index::new(alloc),
            opened: 0,
            alloc,
        }
    }

    /// Opens the next link and gives its number, or `None` where [`LINK_LIMIT`] links count or the last number was given.
    ///
    /// Out of memory is answered with no link opened.
    pub fn open(&mut self) -> Result<Option<u32>, NoMemory>
        ensures ok { IfOk result (λ number. Opens self.old number self.new) }
        ensures err { OnErr result (self.new ≡ self.old) }
    {
        if self.slots.len() >= LINK_LIMIT || self.opened == u32::MAX {
            return Ok(None);
        }
        self.slots.reserve(1)?;
        let number = self.opened + 1;
        self.index.push(number, self.slots.vacant_key())?;
        self.slots.insert_reserved(Entry::new(self.alloc, number));
        self.opened = number;
        Ok(Some(number))
    }

    /// How many links count, which is at most [`LINK_LIMIT`], and what else holds of all links.
    pub fn counted(&self) -> u32
        ensures value { result ≡ counted self.now }
        ensures limit { result ≤ 256 }
        ensures links { AreLinks self.now }
    {
        self.slots.len() as u32
    }

    /// The state of a link.
    pub fn state(&self, number: u32) -> LinkState
        ensures { result ≡ state_of self.now number }
    {
        match find(&self.slots, &self.index, number) {
            Some(entry) => entry.state,
            None if number == 0 || number > self.opened => LinkState::Never,
            None => LinkState::Gone,
        }
    }

    /// How many messages wait on a link.
    pub fn waiting(&self, number: u32) -> usize
        ensures { result ≡ length (pending_of self.now number) }
    {
        match find(&self.slots, &self.index, number) {
            Some(entry) => entry.pending.len(),
            None => 0,
        }
    }

    /// The links that are open, by rising number. It allocates once at most, room for as many as count.
    pub fn open_links(&self, alloc: Global) -> Result<Vec<OpenLink>, NoMemory>
        ensures { IfOk result (λ found. found.items ≡ open_links self.now) }
    {
        let pairs = self.index.pairs();
        let mut found = Vec::with_capacity(alloc, pairs.len())?;
        for pair in pairs {
            if let Some(link) = open_at(&self.slots, pair.1) {
                found.push_reserved(link);
            }
        }
        Ok(found)
    }

    /// Puts a message behind those that wait on a link, if the link is open. Where more than [`PENDING_LIMIT`] bytes would
    /// wait, it drops the message and the link is overrun. It takes no memory.
    pub fn send(&mut self, number: u32, message: Message)
        ensures { self.new ≡ changed (sent message) self.old number }
    {
        if let Some(mut entry) = take_out(&mut self.slots, &self.index, number) {
            entry.send(message);
            put_back(&mut self.slots, &mut self.index, entry);
        }
    }

    /// Ends the input of a link that is open. It takes no memory.
    pub fn end(&mut self, number: u32)
        ensures { self.new ≡ changed ended self.old number }
    {
        if let Some(mut entry) = take_out(&mut self.slots, &self.index, number) {
            entry.end();
            put_back(&mut self.slots, &mut self.index, entry);
        }
    }

    /// Loses a link: it isn't open any more, and what waits on it is dropped. It takes no memory.
    pub fn lose(&mut self, number: u32)
        ensures { self.new ≡ changed lost self.old number }
    {
        if let Some(mut entry) = take_out(&mut self.slots, &self.index, number) {
            entry.lose();
            put_back(&mut self.slots, &mut self.index, entry);
        }
    }

    /// Takes the message that waits longest on a link. It takes no memory.
    pub fn take(&mut self, number: u32) -> Option<Bytes>
        ensures message { result ≡ oldest (pending_of self.old number) }
        ensures rest { self.new ≡ changed taken self.old number }
    {
        let mut entry = take_out(&mut self.slots, &self.index, number)?;
        let message = entry.take();
        put_back(&mut self.slots, &mut self.index, entry);
        message
    }
}

// The link of a number, if it counts.
fn find<'a>(slots: &'a Slab<Entry>, index: &Index, number: u32) -> Option<&'a Entry>
    requires { IsIndex slots.now.slots index.now }
    ensures { option_copied result ≡ entry_in slots.now.slots number }
{
    match index.key_of(number) {
        Some(key) => slots.get(key),
        None => None,
    }
}

// The link of an entry, if it is open.
fn open_at(slots: &Slab<Entry>, key: usize) -> Option<OpenLink>
    ensures { option_to_list result ≡ open_in (get slots.now key) }
{
    match slots.get(key) {
        Some(entry) => entry.open_link(),
        None => None,
    }
}

// Takes out the link of a number, if it counts.
fn take_out(slots: &mut Slab<Entry>, index: &Index, number: u32) -> Option<Entry>
    requires { IsIndex slots.old.slots index.now }
    ensures { TakesOut slots.old number result slots.new }
{
    match index.key_of(number) {
        Some(key) => Some(slots.remove(key)),
        None => None,
    }
}

// Puts a link back where one was taken out, or takes its number out of the index where it counts no more. It takes no
// memory.
fn put_back(slots: &mut Slab<Entry>, index: &mut Index, entry: Entry)
    requires room { HasRoomFor slots.old 1 }
    requires vacant { get slots.old slots.old.vacant_key ≡ None }
    ensures slots { PutsBack slots.old entry slots.new }
    ensures index { index.new ≡ index_left entry index.old }
{
    if entry.counts() {
        slots.insert_reserved(entry);
    } else {
        index.remove(entry.number);
    }
}
