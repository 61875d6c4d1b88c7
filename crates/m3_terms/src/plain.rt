//! Runs of ASCII that a text may have.
ghost use Rattle.std.specs.Prelude.{◌≡◌, ◌<◌, ◌≤◌, length, take, true};
ghost use Rattle.std.specs.List.{list_all};
ghost use Rattle.m3_terms.specs.Text.{is_plain};

/// How many bytes are tested at a time while so many are left, and then how many of the others.
const WIDE: usize = 32;

const NARROW: usize = 8;

/// Whether a byte is an allowed character by itself.
#[inline(always)]
fn is_plain(byte: u8) -> bool
    ensures { result ≡ is_plain byte }
{
    matches!(byte, b'\t' | b'\n' | b'\r' | 0x20..=0x7F)
}

/// Whether each byte is an allowed character by itself. It tests every byte, so that the loop has no branch.
#[inline(always)]
fn are_plain(block: &[u8]) -> bool
    ensures { result ≡ list_all is_plain block.now }
{
    let mut plain = true;
    for byte in block {
        plain &= is_plain(*byte);
    }
    plain
}

/// How far blocks of plain bytes go on from an offset before which each byte is plain.
#[inline(always)]
fn skip_blocks(bytes: &[u8], from: usize, block: usize) -> usize
    requires some { 0 < block }
    requires within { from ≤ length bytes.now }
    requires plain { list_all is_plain (take from bytes.now) ≡ true }
    ensures within { result ≤ length bytes.now }
    ensures plain { list_all is_plain (take result bytes.now) ≡ true }
{
    let mut at = from;
    while bytes.len() - at >= block && are_plain(&bytes[at..at + block]) {
        at += block;
    }
    at
}

/// The length of the longest prefix in which each byte is an allowed character by itself.
pub(crate) fn plain_len(bytes: &[u8]) -> usize
    ensures within { result ≤ length bytes.now }
    ensures plain { list_all is_plain (take result bytes.now) ≡ true }
{
    let wide = skip_blocks(bytes, 0, WIDE);
    let narrow = skip_blocks(bytes, wide, NARROW);
    skip_blocks(bytes, narrow, 1)
}
