ghost use Rattle.std.specs.Prelude.{◌≡◌};
ghost use Rattle.ssap_machine.specs.Options.{may_be_empty};
ghost use Rattle.ssap_machine.specs.Words.{starting, finishing, attribute_name};

use ssap_items::TagName;

/// `<` and the name of an element.
#[tactic(auto, unfolding(crate::specs::Words::starting, ssap_items::specs::Tags::tag_name))]
pub(crate) fn start_tag(name: TagName) -> &'static [u8]
    ensures { result.now ≡ starting name }
{
    match name {
        TagName::MessageType => b"<message_type",
        TagName::TransactionType => b"<transaction_type",
        TagName::TransactionId => b"<transaction_id",
        TagName::NodeId => b"<node_id",
        TagName::SpaceId => b"<space_id",
        TagName::Parameter => b"<parameter",
        TagName::TripleList => b"<triple_list",
        TagName::Triple => b"<triple",
        TagName::Subject => b"<subject",
        TagName::Predicate => b"<predicate",
        TagName::Object => b"<object",
        TagName::Sparql => b"<sparql",
        TagName::Head => b"<head",
        TagName::Variable => b"<variable",
        TagName::Results => b"<results",
        TagName::Result => b"<result",
        TagName::Binding => b"<binding",
        TagName::Uri => b"<uri",
        TagName::Literal => b"<literal",
        TagName::Bnode => b"<bnode",
        TagName::SsapMessage => b"<SSAP_message",
    }
}

/// `</` and the name of an element.
#[tactic(auto, unfolding(crate::specs::Words::finishing, ssap_items::specs::Tags::tag_name))]
pub(crate) fn finish_tag(name: TagName) -> &'static [u8]
    ensures { result.now ≡ finishing name }
{
    match name {
        TagName::MessageType => b"</message_type",
        TagName::TransactionType => b"</transaction_type",
        TagName::TransactionId => b"</transaction_id",
        TagName::NodeId => b"</node_id",
        TagName::SpaceId => b"</space_id",
        TagName::Parameter => b"</parameter",
        TagName::TripleList => b"</triple_list",
        TagName::Triple => b"</triple",
        TagName::Subject => b"</subject",
        TagName::Predicate => b"</predicate",
        TagName::Object => b"</object",
        TagName::Sparql => b"</sparql",
        TagName::Head => b"</head",
        TagName::Variable => b"</variable",
        TagName::Results => b"</results",
        TagName::Result => b"</result",
        TagName::Binding => b"</binding",
        TagName::Uri => b"</uri",
        TagName::Literal => b"</literal",
        TagName::Bnode => b"</bnode",
        TagName::SsapMessage => b"</SSAP_message",
    }
}

/// The name of the one attribute that an element may have.
#[tactic(auto, unfolding(crate::specs::Words::attribute_name))]
pub(crate) fn attribute_of(name: TagName) -> &'static [u8]
    ensures { result.now ≡ attribute_name name }
{
    match name {
        TagName::Sparql => b"xmlns",
        TagName::MessageType
        | TagName::TransactionType
        | TagName::TransactionId
        | TagName::NodeId
        | TagName::SpaceId
        | TagName::Parameter
        | TagName::TripleList
        | TagName::Triple
        | TagName::Subject
        | TagName::Predicate
        | TagName::Object
        | TagName::Head
        | TagName::Variable
        | TagName::Results
        | TagName::Result
        | TagName::Binding
        | TagName::Uri
        | TagName::Literal
        | TagName::Bnode
        | TagName::SsapMessage => b"type",
    }
}

/// Whether an element may be self-closing.
#[tactic(auto, unfolding(crate::specs::Options::may_be_empty))]
pub(crate) fn is_often_empty(name: TagName) -> bool
    ensures { result ≡ may_be_empty name }
{
    match name {
        TagName::MessageType
        | TagName::TransactionType
        | TagName::Triple
        | TagName::Sparql
        | TagName::Binding
        | TagName::SsapMessage => false,
        TagName::TransactionId
        | TagName::NodeId
        | TagName::SpaceId
        | TagName::Parameter
        | TagName::TripleList
        | TagName::Subject
        | TagName::Predicate
        | TagName::Object
        | TagName::Head
        | TagName::Variable
        | TagName::Results
        | TagName::Result
        | TagName::Uri
        | TagName::Literal
        | TagName::Bnode => true,
    }
}
