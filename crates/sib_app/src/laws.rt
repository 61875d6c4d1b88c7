//! A law of the words of commands. The function does nothing: its contract is the law.
ghost use Rattle.sib_app.specs.Laws.{WordsNameOneCommand};

/// Words name at most one command.
pub fn words_name_one_command()
    ensures { WordsNameOneCommand }
{}
