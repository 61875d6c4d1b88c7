//! The command that words name.
ghost use Rattle.std.specs.Prelude.{◌≡◌, ◌∷◌, [], ℕ, MatchOption};
ghost use Rattle.kp_talk.specs.Words.{texts};
ghost use Rattle.sib_app.specs.Commands.{IsCommandOf, IsForm, IsUpdatesWord, meant, make_word, replay_word, report_word, trial_word};
ghost use Rattle.stream_report.specs.declared.verdict.Report.{Report as Kind};

use kp_talk::{count_of, is_identifier};
use stream_report::Report;

/// The most updates of a script that is made.
const UPDATE_LIMIT: u32 = 10_000;

/// What words ask for.
#[derive(Clone, Copy)]
pub(crate) enum Command<'a> {
    /// Replay a script in the space of this name.
    Replay(&'a [u8]),
    /// Report on a stream of messages.
    Report(Report),
    /// Make the script of so many updates.
    Make(u32),
    /// Make the script of so many updates, and replay it.
    Trial(u32),
}

/// The command that words name, or `None` where they are no form. It takes no memory.
pub(crate) fn command_of(words: &[String]) -> Option<Command<'_>>
    ensures { MatchOption result (¬ IsForm (texts words.now)) (λ command. IsCommandOf (texts words.now) (meant command)) }
{
    match words {
        [word] => alone(word.as_str()),
        [word, argument] => with_argument(word.as_str(), argument.as_str()),
        _ => None,
    }
}

// The command that one word names.
fn alone<'a>(word: &str) -> Option<Command<'a>>
    ensures { MatchOption result (¬ IsForm (word.now ∷ [])) (λ command. IsCommandOf (word.now ∷ []) (meant command)) }
{
    match report_of(word) {
        Some(report) => Some(Command::Report(report)),
        None => None,
    }
}

// The report that a word names.
fn report_of(word: &str) -> Option<Report>
    ensures { MatchOption result ((report : Kind) → ¬ (word.now ≡ report_word report)) (λ report. word.now ≡ report_word report) }
{
    if word == "show" {
        Some(Report::Show)
    } else if word == "check" {
        Some(Report::Check)
    } else {
        None
    }
}

// The command that a word names with an argument.
fn with_argument<'a>(word: &str, argument: &'a str) -> Option<Command<'a>>
    ensures { MatchOption result (¬ IsForm (word.now ∷ argument.now ∷ [])) (λ command. IsCommandOf (word.now ∷ argument.now ∷ []) (meant command)) }
{
    if word == "replay" {
        replay_in(argument.as_bytes())
    } else if word == "make" {
        make_of(argument)
    } else if word == "trial" {
        trial_of(argument)
    } else {
        None
    }
}

// The replay in the space of this name.
fn replay_in(name: &[u8]) -> Option<Command<'_>>
    ensures { MatchOption result (¬ IsForm (replay_word ∷ name.now ∷ [])) (λ command. IsCommandOf (replay_word ∷ name.now ∷ []) (meant command)) }
{
    if is_identifier(name) {
        Some(Command::Replay(name))
    } else {
        None
    }
}

// The script of as many updates as a word says, which is to be made.
fn make_of<'a>(word: &str) -> Option<Command<'a>>
    ensures { MatchOption result (¬ IsForm (make_word ∷ word.now ∷ [])) (λ command. IsCommandOf (make_word ∷ word.now ∷ []) (meant command)) }
{
    match updates_of(word) {
        Some(updates) => Some(Command::Make(updates)),
        None => None,
    }
}

// The script of as many updates as a word says, which is to be tried.
fn trial_of<'a>(word: &str) -> Option<Command<'a>>
    ensures { MatchOption result (¬ IsForm (trial_word ∷ word.now ∷ [])) (λ command. IsCommandOf (trial_word ∷ word.now ∷ []) (meant command)) }
{
    match updates_of(word) {
        Some(updates) => Some(Command::Trial(updates)),
        None => None,
    }
}

// The number of updates that a word is in decimal.
fn updates_of(word: &str) -> Option<u32>
    ensures { MatchOption result ((updates : ℕ) → ¬ IsUpdatesWord word.now updates) (IsUpdatesWord word.now) }
{
    let count = count_of(word)?;
    if count == 0 {
        return None;
    }
    if count > UPDATE_LIMIT {
        return None;
    }
    Some(count)
}
