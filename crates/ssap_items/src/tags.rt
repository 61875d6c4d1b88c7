ghost use Rattle.std.specs.Prelude.{◌≡◌, ◌≢◌, ◌⊎◌, ◌↔◌, ◌<◌, IsTrue, IfSome, IfNone};
ghost use Rattle.ssap_items.specs.Tags.{tag_name, tag_number, tag_spelling, BeginsWith, Has, HasNone};

/// The names of the elements of a message, each as its tag in Rust's capitals.
#[derive(Clone, Copy, Debug, PartialEq, Eq)]
pub enum TagName {
    MessageType,
    TransactionType,
    TransactionId,
    NodeId,
    SpaceId,
    Parameter,
    TripleList,
    Triple,
    Subject,
    Predicate,
    Object,
    Sparql,
    Head,
    Variable,
    Results,
    Result,
    Binding,
    Uri,
    Literal,
    Bnode,
    SsapMessage,
}

const NAMES: [TagName; 21] = [
    TagName::MessageType,
    TagName::TransactionType,
    TagName::TransactionId,
    TagName::NodeId,
    TagName::SpaceId,
    TagName::Parameter,
    TagName::TripleList,
    TagName::Triple,
    TagName::Subject,
    TagName::Predicate,
    TagName::Object,
    TagName::Sparql,
    TagName::Head,
    TagName::Variable,
    TagName::Results,
    TagName::Result,
    TagName::Binding,
    TagName::Uri,
    TagName::Literal,
    TagName::Bnode,
    TagName::SsapMessage,
];

impl TagName {
    /// The name as it is written in a message.
    #[tactic(auto, unfolding(crate::specs::Tags::tag_name))]
    pub fn as_bytes(self) -> &'static [u8]
        ensures { result.now ≡ tag_name self }
    {
        match self {
            TagName::MessageType => b"message_type",
            TagName::TransactionType => b"transaction_type",
            TagName::TransactionId => b"transaction_id",
            TagName::NodeId => b"node_id",
            TagName::SpaceId => b"space_id",
            TagName::Parameter => b"parameter",
            TagName::TripleList => b"triple_list",
            TagName::Triple => b"triple",
            TagName::Subject => b"subject",
            TagName::Predicate => b"predicate",
            TagName::Object => b"object",
            TagName::Sparql => b"sparql",
            TagName::Head => b"head",
            TagName::Variable => b"variable",
            TagName::Results => b"results",
            TagName::Result => b"result",
            TagName::Binding => b"binding",
            TagName::Uri => b"uri",
            TagName::Literal => b"literal",
            TagName::Bnode => b"bnode",
            TagName::SsapMessage => b"SSAP_message",
        }
    }

    /// The number of the name among all names.
    #[tactic(auto, unfolding(crate::specs::Tags::tag_number))]
    fn number(self) -> usize
        ensures value { result ≡ tag_number self }
        ensures within { result < 21 }
    {
        match self {
            TagName::MessageType => 0,
            TagName::TransactionType => 1,
            TagName::TransactionId => 2,
            TagName::NodeId => 3,
            TagName::SpaceId => 4,
            TagName::Parameter => 5,
            TagName::TripleList => 6,
            TagName::Triple => 7,
            TagName::Subject => 8,
            TagName::Predicate => 9,
            TagName::Object => 10,
            TagName::Sparql => 11,
            TagName::Head => 12,
            TagName::Variable => 13,
            TagName::Results => 14,
            TagName::Result => 15,
            TagName::Binding => 16,
            TagName::Uri => 17,
            TagName::Literal => 18,
            TagName::Bnode => 19,
            TagName::SsapMessage => 20,
        }
    }
}

/// A tag: `<name` where an element starts, or `</name` where it finishes.
#[derive(Clone, Copy, Debug, PartialEq, Eq)]
pub enum Tag {
    Start(TagName),
    Finish(TagName),
}

impl Tag {
    /// Whether what is written behind the `<` begins with these bytes.
    #[tactic(auto, unfolding(crate::specs::Tags::tag_spelling))]
    fn begins_with(self, prefix: &[u8]) -> bool
        ensures { IsTrue result ↔ BeginsWith (tag_spelling self) prefix.now }
    {
        match self {
            Tag::Start(name) => name.as_bytes().starts_with(prefix),
            Tag::Finish(name) => match prefix.split_first() {
                Some((first, rest)) => *first == b'/' && name.as_bytes().starts_with(rest),
                None => true,
            },
        }
    }

    /// Whether these bytes are all that is written behind the `<`.
    #[tactic(auto, unfolding(crate::specs::Tags::tag_spelling))]
    fn is_written(self, word: &[u8]) -> bool
        ensures { IsTrue result ↔ (word.now ≡ tag_spelling self) }
    {
        match self {
            Tag::Start(name) => name.as_bytes() == word,
            Tag::Finish(name) => match word.split_first() {
                Some((first, rest)) => *first == b'/' && name.as_bytes() == rest,
                None => false,
            },
        }
    }
}

/// The set of tags that may come at a point of a message.
#[derive(Clone, Copy, Debug, PartialEq, Eq)]
pub struct Tags {
    starts: [bool; 21],
    finishes: [bool; 21],
}

impl Tags {
    /// The empty set.
    #[tactic(auto, unfolding(crate::specs::Tags::Has))]
    pub fn none() -> Tags
        ensures { HasNone result }
    {
        Tags {
            starts: [false; 21],
            finishes: [false; 21],
        }
    }

    /// The set with one more tag.
    #[tactic(auto, unfolding(crate::specs::Tags::Has))]
    pub fn with(self, tag: Tag) -> Tags
        ensures { (other : Tag) → Has result other ↔ (Has self other ⊎ (other ≡ tag)) }
    {
        let mut tags = self;
        match tag {
            Tag::Start(name) => tags.starts[name.number()] = true,
            Tag::Finish(name) => tags.finishes[name.number()] = true,
        }
        tags
    }

    /// Whether the tag is in the set.
    #[tactic(auto, unfolding(crate::specs::Tags::Has))]
    pub fn contains(&self, tag: Tag) -> bool
        ensures { IsTrue result ↔ Has self.now tag }
    {
        match tag {
            Tag::Start(name) => self.starts[name.number()],
            Tag::Finish(name) => self.finishes[name.number()],
        }
    }

    /// Whether one of the tags begins with the prefix: what was read behind the `<`.
    pub fn viable(&self, prefix: &[u8]) -> bool
        ensures { IsTrue result ↔ (tag : Tag) × Has self.now tag × BeginsWith (tag_spelling tag) prefix.now }
    {
        for name in NAMES.iter() {
            if self.goes_on(Tag::Start(*name), prefix) || self.goes_on(Tag::Finish(*name), prefix) {
                return true;
            }
        }
        false
    }

    /// The tag of the set whose whole name these bytes are. None where there is none.
    pub fn find(&self, name: &[u8]) -> Option<Tag>
        ensures found { IfSome result (λ tag. Has self.now tag × (name.now ≡ tag_spelling tag)) }
        ensures none { IfNone result ((tag : Tag) → Has self.now tag → name.now ≢ tag_spelling tag) }
    {
        for known in NAMES.iter() {
            if self.names(Tag::Start(*known), name) {
                return Some(Tag::Start(*known));
            }
            if self.names(Tag::Finish(*known), name) {
                return Some(Tag::Finish(*known));
            }
        }
        None
    }

    /// Whether the tag is in the set and begins with the prefix.
    fn goes_on(&self, tag: Tag, prefix: &[u8]) -> bool
        ensures { IsTrue result ↔ (Has self.now tag × BeginsWith (tag_spelling tag) prefix.now) }
    {
        self.contains(tag) && tag.begins_with(prefix)
    }

    /// Whether the tag is in the set and is so written.
    fn names(&self, tag: Tag, word: &[u8]) -> bool
        ensures { IsTrue result ↔ (Has self.now tag × (word.now ≡ tag_spelling tag)) }
    {
        self.contains(tag) && tag.is_written(word)
    }
}
