//! The confirms and the indications among written lines.
ghost use Rattle.std.specs.Prelude.{◌≡◌, ◌≢◌, ◌<◌, ◌≤◌, ◌-◌, ◌^◌, ◌++◌, ◌∷◌, [], List, ℕ, length, flat_map, Some, None, IfSome};
ghost use Rattle.std.specs.Fmt.{decimal};
ghost use Rattle.sib_replay.specs.Lines.{Line, line_bytes};
ghost use Rattle.replay_trial.specs.Replies.{replies_in};
ghost use Rattle.replay_trial.specs.Reading.{Lacks, message_of as message_in, header_front, with_message, both_replies};

use memchr::memchr;
use std::str;

/// How many confirms and how many indications there are.
#[derive(Clone, Copy, Debug, PartialEq, Eq)]
pub struct Replies {
    pub confirms: u64,
    pub indications: u64,
}

impl Replies {
    /// These and others, where both sums fit.
    pub fn plus(self, more: Replies) -> Option<Replies>
        ensures { IfSome result (λ sum. sum ≡ both_replies self more) }
    {
        Some(Replies {
            confirms: self.confirms.checked_add(more.confirms)?,
            indications: self.indications.checked_add(more.indications)?,
        })
    }

    /// One message more.
    #[tactic(auto, unfolding(crate::specs::Replies::confirm_front, crate::specs::Replies::indication_front))]
    fn add(&mut self, message: &[u8])
        requires room { (self.old.confirms < 2 ^ 64 - 1) × (self.old.indications < 2 ^ 64 - 1) }
        ensures { self.new ≡ with_message self.old message.now }
    {
        if message.starts_with(b"<SSAP_message><message_type>CONFIRM") {
            self.confirms += 1;
        }
        if message.starts_with(b"<SSAP_message><message_type>INDICATION") {
            self.indications += 1;
        }
    }
}

/// The confirms and the indications among the messages of lines.
pub fn count_replies(bytes: &[u8]) -> Replies
    requires counted { length bytes.now < 2 ^ 64 }
    ensures { (lines : List Line) → bytes.now ≡ flat_map line_bytes lines → result ≡ replies_in lines }
{
    let mut replies = Replies {
        confirms: 0,
        indications: 0,
    };
    let mut rest = bytes;
    'lines: while !rest.is_empty() {
        let (message, more) = next_line(rest);
        replies.add(message);
        rest = more;
    }
    replies
}

/// The message of the first line, which is empty where it has none, and the bytes behind the line.
fn next_line(bytes: &[u8]) -> (&[u8], &[u8])
    ensures message { (line : Line) (more : List ℕ) → bytes.now ≡ line_bytes line ++ more → result.0.now ≡ message_in line }
    ensures rest { (line : Line) (more : List ℕ) → bytes.now ≡ line_bytes line ++ more → result.1.now ≡ more }
    ensures shorter { 0 < length bytes.now → length result.1.now < length bytes.now }
{
    let (head, rest) = cut(b'\n', bytes);
    match size_of(head) {
        Some(size) => message_of(rest, size),
        None => rest.split_at(0),
    }
}

/// The message of so many bytes at the start, and the bytes behind its line end.
fn message_of(bytes: &[u8], size: usize) -> (&[u8], &[u8])
    ensures message { (message more : List ℕ) → bytes.now ≡ message ++ 10 ∷ more → size ≡ length message → (result.0.now ≡ message) × (result.1.now ≡ more) }
    ensures shorter { length result.1.now ≤ length bytes.now }
{
    let (message, rest) = bytes.split_at(size.min(bytes.len()));
    (message, cut(b'\n', rest).1)
}

/// The length of the message behind a header. A line that begins with another byte is none.
fn size_of(header: &[u8]) -> Option<usize>
    ensures header { (link size : ℕ) → header.now ≡ header_front link size → size < 2 ^ 64 → result ≡ Some size }
    ensures other { (first : ℕ) (more : List ℕ) → header.now ≡ first ∷ more → first ≢ 60 → result ≡ None }
{
    if header.first() != Some(&b'<') {
        return None;
    }
    number(cut(b' ', header).1)
}

/// The bytes before the first of these, and those behind it.
fn cut(byte: u8, bytes: &[u8]) -> (&[u8], &[u8])
    ensures apart { (front rest : List ℕ) → bytes.now ≡ front ++ byte ∷ rest → Lacks byte front → (result.0.now ≡ front) × (result.1.now ≡ rest) }
    ensures shorter { 0 < length bytes.now → length result.1.now < length bytes.now }
    ensures within { length result.1.now ≤ length bytes.now }
    ensures counted { length bytes.now < 2 ^ 64 }
{
    match memchr(byte, bytes) {
        Some(at) => (&bytes[..at], &bytes[at + 1..]),
        None => bytes.split_at(bytes.len()),
    }
}

/// The number that these bytes spell in decimal.
fn number(digits: &[u8]) -> Option<usize>
    ensures { (number : ℕ) → digits.now ≡ decimal number → number < 2 ^ 64 → result ≡ Some number }
{
    match str::from_utf8(digits) {
        Ok(digits) => digits.parse::<usize>().ok(),
        Err(_) => None,
    }
}
