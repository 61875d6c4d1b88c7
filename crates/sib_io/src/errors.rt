//! What a failed call asks of a listener.
ghost use Rattle.std.specs.Prelude.{◌≡◌};
ghost use Rattle.std.specs.IoError.{raw_os_error};
ghost use Rattle.sib_io.specs.Accepting.{is_among as among, is_of_one_connection as of_one_connection, is_of_shortage as of_shortage, code_trouble, trouble};

use std::io;

/// What a failed call on a listener, or on a connection that it gave, asks of the listener.
#[derive(Clone, Copy, Debug, PartialEq, Eq)]
pub(crate) enum Trouble {
    /// One connection was lost: go on.
    Again,
    /// The kernel is short of memory or descriptors: wait and go on.
    Shortage,
    /// The listener itself failed.
    Fault,
}

/// What an error asks of the listener.
pub(crate) fn trouble_of(error: &io::Error) -> Trouble
    ensures { result ≡ trouble (raw_os_error error.now) }
{
    trouble_in(error.raw_os_error())
}

/// What an error asks of the listener, by its number.
fn trouble_in(code: Option<i32>) -> Trouble
    ensures { result ≡ trouble code }
{
    match code {
        Some(code) => trouble_of_code(code),
        None => Trouble::Fault,
    }
}

/// What an error number asks of the listener.
fn trouble_of_code(code: i32) -> Trouble
    ensures { result ≡ code_trouble code }
{
    if is_of_one_connection(code) {
        Trouble::Again
    } else if is_of_shortage(code) {
        Trouble::Shortage
    } else {
        Trouble::Fault
    }
}

/// Whether it is EINTR, ENONET, EPROTO, ENOPROTOOPT, EOPNOTSUPP, ENETDOWN, ENETUNREACH, ECONNABORTED, ECONNRESET, EHOSTDOWN or
/// EHOSTUNREACH.
#[tactic(auto, unfolding(crate::specs::Accepting::is_of_one_connection))]
fn is_of_one_connection(code: i32) -> bool
    ensures { result ≡ of_one_connection code }
{
    is_among(&[4, 64, 71, 92, 95, 100, 101, 103, 104, 112, 113], code)
}

/// Whether it is ENOMEM, ENFILE, EMFILE or ENOBUFS.
#[tactic(auto, unfolding(crate::specs::Accepting::is_of_shortage))]
fn is_of_shortage(code: i32) -> bool
    ensures { result ≡ of_shortage code }
{
    is_among(&[12, 23, 24, 105], code)
}

/// Whether a number is among these.
fn is_among(numbers: &[i32], code: i32) -> bool
    ensures { result ≡ among numbers.now code }
{
    numbers.iter().any(|number| *number == code)
}
