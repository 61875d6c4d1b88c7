ghost use Rattle.std.specs.Prelude.{◌≡◌, ◌<◌, ◌≤◌, length, take, IfOk, OnErr};
ghost use Rattle.std.specs.Io.KnownBytes.{Consumes, IsAtEnd, Keeps};
ghost use Rattle.sib_io.specs.Causes.{HasCause};

use crate::outside::{Failed, Source};

/// The most bytes that a command takes from its input, or a client from its link. Where so many were taken before the end
/// was seen, the end is not waited for.
pub const INPUT_LIMIT: u64 = 1_099_511_627_776;

/// Reads the next bytes into the buffer, at most `left` of them, and says how many came. 0 means that the input is over.
/// After `Failed` nothing was taken.
pub fn read_at_most<S: Source>(
    source: &mut S,
    buffer: &mut [u8],
    left: u64,
) -> Result<usize, Failed>
    requires left { 0 < left }
    requires room { 0 < length buffer.old }
    ensures within { IfOk result (λ count. (count ≤ left) × (count ≤ length buffer.new)) }
    ensures bytes { IfOk result (λ count. Consumes (S.left source.old) (S.left source.new) (take count buffer.new)) }
    ensures end { IfOk result (λ count. count ≡ 0 → IsAtEnd (S.left source.new)) }
    ensures failed { OnErr result (Keeps (S.left source.old) (S.left source.new)) }
    ensures cause { HasCause (S.faults source.old) (S.faults source.new) result }
{
    let room = buffer.len().min(left as usize);
    source.read(&mut buffer[..room])
}
