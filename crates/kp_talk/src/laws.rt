//! Laws of talks. The functions do nothing: their contracts are the laws.

ghost use Rattle.kp_talk.specs.Laws.{TalksAreOnce, TalksStay, WordsNameOneErrand};

/// The bytes of a link make at most one talk on an errand.
pub fn talks_are_once()
    ensures { TalksAreOnce }
{}

/// A talk that is finished for another reason than that the bytes are over stays the same when more bytes follow.
pub fn talks_stay()
    ensures { TalksStay }
{}

/// Words name at most one errand.
pub fn words_name_one_errand()
    ensures { WordsNameOneErrand }
{}
