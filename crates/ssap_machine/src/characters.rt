ghost use Rattle.std.specs.Prelude.{◌≡◌, ◌≢◌, ◌⊎◌, ◌↔◌, ◌<◌, ◌≤◌, ℕ, List, ◌∷◌, IsTrue, length, take, slice_index, encode_utf8_all};
ghost use Rattle.std.specs.List.{AllByRecursion};
ghost use Rattle.m3_terms.specs.Text.{IsAllowed};
ghost use Rattle.ssap_machine.specs.CharacterFronts.{Begun, IsSecondOfThree, IsThirdOfThree, IsSecondOfFour, IsLater};

/// How an allowed character stands at the start of some bytes.
#[derive(Clone, Copy)]
pub(crate) enum CharacterFront {
    /// A whole one, of so many bytes.
    Whole { count: usize },
    /// The bytes are a prefix of one, and end before it does.
    Half,
    /// None goes on with the byte at this offset.
    Stuck { place: usize },
}

/// Whether a byte goes on with a character of three bytes.
fn is_second_of_three(first: u8, second: u8) -> bool
    ensures { IsTrue result ↔ IsSecondOfThree first second }
{
    let low = if first == 0xE0 { 0xA0 } else { 0x80 };
    let high = if first == 0xED { 0x9F } else { 0xBF };
    low <= second && second <= high
}

/// Whether a byte ends a character of three bytes.
fn is_third_of_three(first: u8, second: u8, third: u8) -> bool
    ensures { IsTrue result ↔ IsThirdOfThree first second third }
{
    let high = if first == 0xEF && second == 0xBF {
        0xBD
    } else {
        0xBF
    };
    0x80 <= third && third <= high
}

/// Whether a byte goes on with a character of four bytes.
fn is_second_of_four(first: u8, second: u8) -> bool
    ensures { IsTrue result ↔ IsSecondOfFour first second }
{
    let low = if first == 0xF0 { 0x90 } else { 0x80 };
    let high = if first == 0xF4 { 0x8F } else { 0xBF };
    low <= second && second <= high
}

/// Whether a byte is a later one of a character.
fn is_later(byte: u8) -> bool
    ensures { IsTrue result ↔ IsLater byte }
{
    0x80 <= byte && byte <= 0xBF
}

/// The start of a character of two bytes.
fn two_bytes(bytes: &[u8]) -> CharacterFront
    requires some { 0 < length bytes.now }
    requires low { 0xC2 ≤ slice_index bytes.now 0 }
    requires high { slice_index bytes.now 0 ≤ 0xDF }
    ensures { Begun bytes.now result }
{
    if bytes.len() < 2 {
        return CharacterFront::Half;
    }
    if !is_later(bytes[1]) {
        return CharacterFront::Stuck { place: 1 };
    }
    CharacterFront::Whole { count: 2 }
}

/// The start of a character of three bytes.
fn three_bytes(bytes: &[u8]) -> CharacterFront
    requires some { 0 < length bytes.now }
    requires low { 0xE0 ≤ slice_index bytes.now 0 }
    requires high { slice_index bytes.now 0 ≤ 0xEF }
    ensures { Begun bytes.now result }
{
    if bytes.len() < 2 {
        return CharacterFront::Half;
    }
    if !is_second_of_three(bytes[0], bytes[1]) {
        return CharacterFront::Stuck { place: 1 };
    }
    if bytes.len() < 3 {
        return CharacterFront::Half;
    }
    if !is_third_of_three(bytes[0], bytes[1], bytes[2]) {
        return CharacterFront::Stuck { place: 2 };
    }
    CharacterFront::Whole { count: 3 }
}

/// The start of a character of four bytes.
fn four_bytes(bytes: &[u8]) -> CharacterFront
    requires some { 0 < length bytes.now }
    requires low { 0xF0 ≤ slice_index bytes.now 0 }
    requires high { slice_index bytes.now 0 ≤ 0xF4 }
    ensures { Begun bytes.now result }
{
    if bytes.len() < 2 {
        return CharacterFront::Half;
    }
    if !is_second_of_four(bytes[0], bytes[1]) {
        return CharacterFront::Stuck { place: 1 };
    }
    if bytes.len() < 3 {
        return CharacterFront::Half;
    }
    if !is_later(bytes[2]) {
        return CharacterFront::Stuck { place: 2 };
    }
    if bytes.len() < 4 {
        return CharacterFront::Half;
    }
    if !is_later(bytes[3]) {
        return CharacterFront::Stuck { place: 3 };
    }
    CharacterFront::Whole { count: 4 }
}

/// How an allowed character beyond ASCII stands at the start of the bytes.
pub(crate) fn character_front(bytes: &[u8]) -> CharacterFront
    requires some { 0 < length bytes.now }
    requires high { 128 ≤ slice_index bytes.now 0 }
    ensures { Begun bytes.now result }
{
    match bytes[0] {
        0xC2..=0xDF => two_bytes(bytes),
        0xE0..=0xEF => three_bytes(bytes),
        0xF0..=0xF4 => four_bytes(bytes),
        _ => CharacterFront::Stuck { place: 0 },
    }
}
