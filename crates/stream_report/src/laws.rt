//! Laws of reports. Each function does nothing: its contract is the law.

ghost use Rattle.stream_report.specs.Laws.{ReportsExist, ReportsOnce, StreamsAreCounted, CountsAreOfStreams, StreamsAreShown, StopsArePlaced, DoneIsFine, StoppedIsNotFine, GivenBeginsReport, SpentIsFull, ReportsAreComplete, ReadFaultsHaveCauses, WriteFaultsHaveCauses, OthersHaveNone};

/// Each input has one report.
pub fn inputs_have_one_report()
    ensures exist { ReportsExist }
    ensures once { ReportsOnce }
{}

/// A check says `ok N` exactly where the input is a stream of N messages, none of which is too long. What shows such a stream is
/// the canonical spelling of each message, with a line end.
pub fn streams_are_counted()
    ensures counted { StreamsAreCounted }
    ensures streams { CountsAreOfStreams }
    ensures shown { StreamsAreShown }
{}

/// The report of any other input ends with a line that has the place of the stop, or the start of the message, and its kind.
pub fn stops_are_placed()
    ensures { StopsArePlaced }
{}

/// A report that is done says that the input, read to its end, is a stream whose messages are no longer than they may be; one
/// that stopped says that it is none. Both were given whole. At every ending what was given is a prefix of the whole report.
pub fn endings_tell_the_input()
    ensures done { DoneIsFine }
    ensures stopped { StoppedIsNotFine }
    ensures part { GivenBeginsReport }
    ensures spent { SpentIsFull }
{}

/// Where neither the source nor the sink fails and memory is found, an input below the limit is reported whole: the ending is
/// `Done` exactly where it is fine, and else `Stopped`.
pub fn faultless_reports_are_complete()
    ensures { ReportsAreComplete }
{}

/// The source and the sink are blamed only where their counts of faults rose, and at the other endings neither did.
pub fn failures_have_causes()
    ensures read { ReadFaultsHaveCauses }
    ensures write { WriteFaultsHaveCauses }
    ensures others { OthersHaveNone }
{}
