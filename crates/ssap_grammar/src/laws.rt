//! Laws of the grammar. Each function does nothing: its contract is the law.

ghost use Rattle.ssap_grammar.specs.Examples.{EitherQuote, QuotesAgree, EmptyText, NoSpaceInEnd, NoEmptyWord, CdataSection, NoSmallCdata, ReferenceInText, NoCapitalReference, SpacesInTags, NoSpaceBeforeName, BlankText, OneName, OneMessage, OneNodeId};
ghost use Rattle.ssap_grammar.specs.Laws.{MessagesAreTold, SpellsOnce, NoneBegins, CanonicalSpells, CanonicalStays, SpellingsAreSayable, SpellingsAreCanonical, MessagesAreSpelled, SpellingsAreRead, StreamsOnce, MessagesStay, SpacesAddNone, MessagesAddOne, UnfinishedBegins, PlacesOnce, WholesOnce, StreamsAreWhole, PartsAreInside, DeadEnds};
ghost use Rattle.ssap_grammar.specs.Stream.{Stream};
ghost use Rattle.ssap_grammar.specs.Vectors.{JoinRequest, JoinCanonical, IndicationCanonical};
ghost use Rattle.std.specs.Prelude.{[]};

/// Bytes are read as a message in one way, and no message is a proper prefix of another.
pub fn one_reading()
    ensures told { MessagesAreTold }
    ensures once { SpellsOnce }
    ensures begins { NoneBegins }
{}

/// What is written canonically is read as the same envelope.
pub fn canonical_spells()
    ensures spells { CanonicalSpells }
    ensures stays { CanonicalStays }
{}

/// Whatever is read can be written: it has no subject that is a literal, and its canonical spelling is read as it.
pub fn spellings_are_sayable()
    ensures sayable { SpellingsAreSayable }
    ensures canonical { SpellingsAreCanonical }
{}

/// A message is some bytes of its own, and what follows has no part in it.
pub fn messages_are_spelled()
    ensures spelled { MessagesAreSpelled }
    ensures read { SpellingsAreRead }
{}

/// The bytes of a stream determine its messages, which stay as more bytes follow.
pub fn messages_stay()
    ensures once { StreamsOnce }
    ensures stay { MessagesStay }
{}

/// Nothing is a stream, white space behind one adds no message, and a message behind one is one more.
pub fn streams_grow()
    ensures nothing { Stream [] [] }
    ensures spaces { SpacesAddNone }
    ensures message { MessagesAddOne }
{}

/// Where bytes end inside a message, it begins where their whole messages and the white space behind them end.
pub fn unfinished_begins()
    ensures { UnfinishedBegins }
{}

/// The longest viable prefix of bytes has one length, and so has the longest that is a stream. A stream is whole.
pub fn places_are_told()
    ensures places { PlacesOnce }
    ensures wholes { WholesOnce }
    ensures streams { StreamsAreWhole }
{}

/// A stream and a part of a message behind it end inside that message. Where no message goes on with the next byte, the
/// longest viable prefix ends before it.
pub fn parts_are_inside()
    ensures inside { PartsAreInside }
    ensures dead_ends { DeadEnds }
{}

/// Small examples of what is spelled, and beside each a neighbour that is not.
pub fn worked_examples()
    ensures either_quote { EitherQuote }
    ensures quotes_agree { QuotesAgree }
    ensures empty_text { EmptyText }
    ensures no_space_in_end { NoSpaceInEnd }
    ensures no_empty_word { NoEmptyWord }
    ensures cdata_section { CdataSection }
    ensures no_small_cdata { NoSmallCdata }
    ensures reference_in_text { ReferenceInText }
    ensures no_capital_reference { NoCapitalReference }
    ensures spaces_in_tags { SpacesInTags }
    ensures no_space_before_name { NoSpaceBeforeName }
    ensures blank_text { BlankText }
    ensures one_name { OneName }
    ensures one_message { OneMessage }
    ensures one_node_id { OneNodeId }
{}

/// Messages as processors and brokers write them.
pub fn vectors()
    ensures join_request { JoinRequest }
    ensures join_canonical { JoinCanonical }
    ensures indication_canonical { IndicationCanonical }
{}
