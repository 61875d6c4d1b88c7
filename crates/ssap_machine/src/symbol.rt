use ssap_items::TagName;

/// A list of words, of which one is to come.
#[derive(Clone, Copy, Debug, PartialEq, Eq)]
pub enum Words {
    /// `>`
    Greater,
    /// `=`
    Equals,
    /// The attribute `version` of a declaration.
    Version,
    /// The version's number in either quote.
    VersionNumber,
    /// The encoding's name in either quote.
    EncodingName,
    /// `?>`
    DeclarationFinish,
    /// The words of the message types.
    MessageTypes,
    /// The words of the transactions.
    Transactions,
    /// The attribute `name`.
    Name,
    /// The attribute `type`.
    Kind,
    /// The kinds of an object in either quote.
    ObjectKinds,
    /// The value, in either quote, of the one attribute that an element may have.
    Values(TagName),
    /// `<` and the name.
    Start(TagName),
    /// `</` and the name.
    Finish(TagName),
}

/// Which headers stood in a message.
#[derive(Clone, Copy, Debug, PartialEq, Eq)]
pub struct Seen {
    pub message_type: bool,
    pub transaction_type: bool,
    pub transaction_id: bool,
    pub node_id: bool,
    pub space_id: bool,
}

/// How many brackets `]` stand before the next byte of a CDATA section.
#[derive(Clone, Copy, Debug, PartialEq, Eq)]
pub enum Brackets {
    None,
    One,
    Some,
}

/// What is still to come of a message.
#[derive(Clone, Copy, Debug, PartialEq, Eq)]
pub enum Symbol {
    /// A message from its first byte on.
    Message,
    /// White space, and one of the words.
    Next(Words),
    /// At least one byte of white space, and one of the words.
    Spaced(Words),
    /// Behind the version of a declaration: perhaps its encoding, and its end.
    DeclarationEnd,
    /// The same behind a byte of white space.
    DeclarationSpaced,
    /// The items of a message in which these headers stood, and its end.
    Items(Seen),
    /// Behind an element's attributes: the end of its starting tag, and the rest of it.
    Open(TagName),
    /// Behind the name of an element that may have one attribute: perhaps this, and the rest of the element.
    Optional(TagName),
    /// The same behind a byte of white space.
    OptionalSpaced(TagName),
    /// Behind the name of a parameter, or an attribute of it: its other attributes, and the rest of it.
    Parameter { named: bool, encoded: bool },
    /// The same behind a byte of white space.
    ParameterSpaced { named: bool, encoded: bool },
    /// White space, and an attribute's value in either quote.
    Quote,
    /// An attribute's value, and its quote (`'` where `single`, and `"` where not).
    Value { single: bool },
    /// The content of a parameter, of which white space stood at most, and its finishing tag.
    Blank,
    /// A text and the finishing tag of its element.
    Text(TagName),
    /// What stands in a CDATA section behind these brackets, and its end.
    Cdata(Brackets),
    /// The elements of a list, and the list's finishing tag.
    Many(TagName),
    /// A uri, a literal or a bnode.
    Term,
}
