ghost use Rattle.ssap_machine.specs.Progress.{Advances};

use crate::Stack;
use crate::step::{Step, read_on};

/// How far the bytes of a message led.
#[derive(Clone, Copy, Debug, PartialEq, Eq)]
pub enum Progress {
    /// A message ended: it took so many of the bytes.
    Whole { taken: usize },
    /// The bytes ended inside a message. From this offset on they are nothing, or a prefix of a lexeme.
    Half { from: usize },
    /// No message goes on with the byte at this offset.
    Fault { place: usize },
}

/// Reads lexemes at the start of the bytes, which begin where one begins, as far as they go. The stack then has what is
/// still to come at the end of the last one; behind a fault it is of no use.
pub fn advance(stack: &mut Stack, bytes: &[u8]) -> Progress
    ensures { Advances stack.old bytes.now result stack.new }
{
    let mut from = 0;
    while !stack.is_empty() {
        let symbol = stack.pop();
        match read_on(symbol, stack, &bytes[from..]) {
            Step::Taken { count } => from += count,
            Step::Half => {
                stack.push(symbol);
                return Progress::Half { from };
            }
            Step::Stuck { place } => {
                return Progress::Fault {
                    place: from + place,
                };
            }
        }
    }
    Progress::Whole { taken: from }
}
