//! Laws of the generated script. Each function does nothing: its contract is the law.

ghost use Rattle.made_script.specs.Laws.{MadeEntriesAreAllowed, MadeScriptsAreScripts, MadeEntriesAreCounted};

/// A generated script is a script of its entries, each of which may stand in one.
pub fn made_scripts_are_scripts()
    ensures allowed { MadeEntriesAreAllowed }
    ensures script { MadeScriptsAreScripts }
{}

/// A generated script has 52 entries and one for each update.
pub fn made_entries_are_counted()
    ensures counted { MadeEntriesAreCounted }
{}
