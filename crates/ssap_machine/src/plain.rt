ghost use Rattle.std.specs.Prelude.{◌≡◌, ◌↔◌, IsTrue, ℕ, ◌<◌, ◌≤◌, length, take, slice_index};
ghost use Rattle.ssap_machine.specs.Plain.{IsOneOf, IsRun, Stops};

use m3_terms::text_len;
use memchr::memchr3;

/// Whether a byte is one of three.
fn is_one_of(first: u8, second: u8, third: u8, byte: u8) -> bool
    ensures { IsTrue result ↔ IsOneOf first second third byte }
{
    byte == first || byte == second || byte == third
}

/// The offset of the first of three bytes, or the length. Where one is the first byte it takes no search.
fn run_end(first: u8, second: u8, third: u8, bytes: &[u8]) -> usize
    ensures within { result ≤ length bytes.now }
    ensures before { (k : ℕ) → k < result → ¬ (IsOneOf first second third (slice_index bytes.now k)) }
    ensures at { result < length bytes.now → IsOneOf first second third (slice_index bytes.now result) }
{
    if !bytes.is_empty() && is_one_of(first, second, third, bytes[0]) {
        return 0;
    }
    match memchr3(first, second, third, bytes) {
        Some(place) => place,
        None => bytes.len(),
    }
}

/// The length of the longest prefix of allowed characters that are none of three of ASCII.
pub(crate) fn plain_len(first: u8, second: u8, third: u8, bytes: &[u8]) -> usize
    requires first { first < 128 }
    requires second { second < 128 }
    requires third { third < 128 }
    ensures within { result ≤ length bytes.now }
    ensures run { IsRun first second third (take result bytes.now) }
    ensures stops { result ≡ 0 → Stops first second third bytes.now }
{
    text_len(&bytes[..run_end(first, second, third, bytes)])
}
