ghost use Rattle.std.specs.Prelude.{◌≡◌, min, length, take};

/// Copies a prefix of `from` into `into`, as much as both have room for, and answers how many bytes.
pub(crate) fn give(from: &[u8], into: &mut [u8]) -> usize
    ensures count { result ≡ min (length into.old) (length from.now) }
    ensures front { take result into.new ≡ take result from.now }
{
    let count = into.len().min(from.len());
    into[..count].copy_from_slice(&from[..count]);
    count
}
