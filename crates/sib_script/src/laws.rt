//! Laws of the format of scripts. Each function does nothing: its contract is the law.

ghost use Rattle.sib_script.specs.Laws.{EntriesAreTold, SplitsOnce, SplitsGrow, ScriptsSplit, RestIsNoScript, PartsSplit, DeadEnds, EntriesGrow, PlacesOnce, SplitsExist, BeginningIsDecided, PlacesExist, WrittenIsScript, ScriptsGrow, PrefixesBegin, NextIsWritten, AllAreWritten};

/// Bytes are read as entries in one way, and what was read stays as more bytes follow.
pub fn one_reading()
    ensures entries { EntriesAreTold }
    ensures once { SplitsOnce }
    ensures grow { SplitsGrow }
    ensures place { PlacesOnce }
{}

/// A script is read whole: nothing is left exactly of scripts.
pub fn scripts_are_whole()
    ensures whole { ScriptsSplit }
    ensures rest { RestIsNoScript }
{}

/// What a reader holds between two entries or inside one begins a script, until a byte with which no entry goes on.
pub fn parts_begin_scripts()
    ensures parts { PartsSplit }
    ensures dead_ends { DeadEnds }
{}

/// Entries are put together one by one.
pub fn entries_grow()
    ensures { EntriesGrow }
{}

/// All bytes split into whole entries and a rest, so what is said of a split is said of one, and of all bytes it can be
/// found whether some script begins with them.
pub fn splits_exist()
    ensures splits { SplitsExist }
    ensures begins { BeginningIsDecided }
    ensures places { PlacesExist }
{}

/// What is written for entries is a script of exactly these entries. A reader of it meets no fault and gives them back, each
/// in its turn, and no others.
pub fn written_is_read()
    ensures script { WrittenIsScript }
    ensures longer { ScriptsGrow }
    ensures begins { PrefixesBegin }
    ensures next { NextIsWritten }
    ensures all { AllAreWritten }
{}
