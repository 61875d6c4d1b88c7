ghost use Rattle.std.specs.Prelude.{IsTrue, ◌↔◌};
ghost use Rattle.ssap_text.specs.Ends.{BeginsFinish};
ghost use Rattle.ssap_read.specs.Told.{Told, Passed, Whatever};
ghost use Rattle.ssap_read.specs.Tags.{ReadsTagEnd, ReadsOpen, ReadsPlainStart, ReadsFinish, ReadsBlank, Finished};

use ssap_text::skip_spaces;

/// The bytes behind `<` and the name.
#[inline(always)]
pub fn open<'a>(name: &[u8], bytes: &'a [u8]) -> Option<&'a [u8]>
    ensures { Passed (ReadsOpen name.now) Whatever bytes.now result }
{
    bytes.strip_prefix(b"<")?.strip_prefix(name)
}

/// Whether a starting tag ends as that of an element that is closed there, and the bytes behind it.
#[inline(always)]
pub fn end_of_tag(bytes: &[u8]) -> Option<(bool, &[u8])>
    ensures { Told ReadsTagEnd Whatever bytes.now result }
{
    let rest = skip_spaces(bytes);
    if let Some(behind) = rest.strip_prefix(b">") {
        return Some((false, behind));
    }
    Some((true, rest.strip_prefix(b"/>")?))
}

/// The same of a whole starting tag without attributes.
#[inline(always)]
pub fn start<'a>(name: &[u8], bytes: &'a [u8]) -> Option<(bool, &'a [u8])>
    ensures { Told (ReadsPlainStart name.now) Whatever bytes.now result }
{
    end_of_tag(open(name, bytes)?)
}

/// The bytes behind a finishing tag.
#[inline(always)]
fn finish<'a>(name: &[u8], bytes: &'a [u8]) -> Option<&'a [u8]>
    ensures { Passed (ReadsFinish name.now) Whatever bytes.now result }
{
    let rest = bytes.strip_prefix(b"</")?.strip_prefix(name)?;
    skip_spaces(rest).strip_prefix(b">")
}

/// What was found as the content of an element, with the bytes behind its finishing tag. `None` where that is missing.
#[inline(always)]
pub fn finished<'a, T: Drop>(name: &[u8], found: Option<(T, &'a [u8])>) -> Option<(T, &'a [u8])>
    ensures { Finished name.now found.entry result }
{
    let (value, rest) = found?;
    Some((value, finish(name, rest)?))
}

/// Whether a finishing tag begins here.
pub fn closes(bytes: &[u8]) -> bool
    ensures { IsTrue result ↔ BeginsFinish bytes.now }
{
    matches!(bytes, [b'<', b'/', ..])
}

/// The bytes behind an element of this name that has white space alone in it.
pub fn spaces_in<'a>(name: &[u8], closed: bool, bytes: &'a [u8]) -> Option<&'a [u8]>
    ensures { Passed (ReadsBlank name.now closed) Whatever bytes.now result }
{
    if closed {
        return Some(bytes);
    }
    finish(name, skip_spaces(bytes))
}
