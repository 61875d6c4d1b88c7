ghost use Rattle.std.specs.Prelude.{◌≡◌, option_to_list};
ghost use Rattle.link_table.specs.Links.{new_link, if_open, sent, ended, lost, taken, closed_link, is_open, is_counted, oldest};
ghost use Rattle.link_table.specs.Table.{link_of, IsEntry};

use crate::{LinkState, Message, OpenLink, PENDING_LIMIT};
use m3_terms::Bytes;
use std::alloc::Global;
use std::collections::LinkedList;

/// A link that counts.
#[derive(Drop)]
pub struct Entry {
    pub number: u32,
    pub state: LinkState,
    /// The messages that wait, the oldest first.
    pub pending: LinkedList<Bytes>,
    /// How many bytes they have.
    pub bytes: u64,
}

impl Entry {
    /// A link that just opened. It takes no memory.
    pub fn new(alloc: Global, number: u32) -> Entry
        ensures link { link_of result ≡ new_link }
        ensures number { result.number ≡ number }
        ensures sound { IsEntry result }
    {
        Entry {
            number,
            state: LinkState::Open,
            pending: LinkedList::new(alloc),
            bytes: 0,
        }
    }

    pub fn is_open(&self) -> bool
        ensures { result ≡ is_open self.now.state }
    {
        matches!(self.state, LinkState::Open)
    }

    /// Whether it is open or a message waits.
    pub fn counts(&self) -> bool
        ensures { result ≡ is_counted (link_of self.now) }
    {
        self.is_open() || !self.pending.is_empty()
    }

    /// The link, if it is open.
    pub fn open_link(&self) -> Option<OpenLink>
        ensures { option_to_list result ≡ if_open self.now.number (link_of self.now) }
    {
        let link = OpenLink {
            number: self.number,
            waiting: self.pending.len(),
        };
        self.is_open().then_some(link)
    }

    /// Puts a message behind those that wait.
    pub fn send(&mut self, message: Message)
        requires { IsEntry self.old }
        ensures link { link_of self.new ≡ sent message (link_of self.old) }
        ensures number { self.new.number ≡ self.old.number }
        ensures sound { IsEntry self.new }
    {
        if !self.is_open() {
            return;
        }
        let len = message.len();
        if len > PENDING_LIMIT - self.bytes {
            self.close(LinkState::Overrun);
        } else {
            message.move_to(&mut self.pending);
            self.bytes += len;
        }
    }

    /// Ends the input.
    pub fn end(&mut self)
        requires { IsEntry self.old }
        ensures link { link_of self.new ≡ ended (link_of self.old) }
        ensures number { self.new.number ≡ self.old.number }
        ensures sound { IsEntry self.new }
    {
        if self.is_open() {
            self.close(LinkState::Ended);
        }
    }

    /// Drops what waits.
    pub fn lose(&mut self)
        requires { IsEntry self.old }
        ensures link { link_of self.new ≡ lost (link_of self.old) }
        ensures number { self.new.number ≡ self.old.number }
        ensures sound { IsEntry self.new }
    {
        self.pending.clear();
        self.bytes = 0;
        self.close(LinkState::Ended);
    }

    /// Takes the message that waits longest.
    pub fn take(&mut self) -> Option<Bytes>
        requires { IsEntry self.old }
        ensures message { result ≡ oldest self.old.pending }
        ensures link { link_of self.new ≡ taken (link_of self.old) }
        ensures number { self.new.number ≡ self.old.number }
        ensures sound { IsEntry self.new }
    {
        let message = self.pending.pop_front();
        if let Some(bytes) = &message {
            self.bytes -= bytes.len() as u64;
        }
        if !self.is_open() {
            self.close(self.state);
        }
        message
    }

    // The link isn't open any more: it has this state while messages wait.
    fn close(&mut self, state: LinkState)
        ensures { self.new ≡ record self.old { state = (closed_link state self.old.pending).state } }
    {
        self.state = if self.pending.is_empty() {
            LinkState::Gone
        } else {
            state
        };
    }
}
