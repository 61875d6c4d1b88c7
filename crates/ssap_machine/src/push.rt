ghost use Rattle.std.specs.Prelude.{◌≡◌, ◌∷◌, ◌++◌};
ghost use Rattle.ssap_machine.specs.Options.{ends, finishes, content};
ghost use Rattle.ssap_machine.specs.Heights.{Fits};
ghost use Rattle.ssap_machine.specs.Choosing.{pushed, stood};

use crate::choice::Pushes;
use crate::{Brackets, Seen, Stack, Symbol, Words};
use ssap_items::TagName;

const NONE_SEEN: Seen = Seen {
    message_type: false,
    transaction_type: false,
    transaction_id: false,
    node_id: false,
    space_id: false,
};

/// Pushes a finishing tag.
#[tactic(auto, unfolding(crate::specs::Heights::need))]
fn push_finish(name: TagName, stack: &mut Stack)
    requires { Fits (finishes name ++ stack.old) }
    ensures { stack.new ≡ finishes name ++ stack.old }
{
    stack.push(Symbol::Next(Words::Greater));
    stack.push(Symbol::Next(Words::Finish(name)));
}

/// Pushes the content of a triple.
#[tactic(auto, unfolding(crate::specs::Options::content, crate::specs::Heights::need, crate::specs::Heights::element_need))]
fn push_triple(stack: &mut Stack)
    requires { Fits (content TagName.Triple ++ stack.old) }
    ensures { stack.new ≡ content TagName.Triple ++ stack.old }
{
    push_finish(TagName::Triple, stack);
    stack.push(Symbol::Open(TagName::Object));
    stack.push(Symbol::Next(Words::ObjectKinds));
    stack.push(Symbol::Next(Words::Equals));
    stack.push(Symbol::Spaced(Words::Kind));
    stack.push(Symbol::Next(Words::Start(TagName::Object)));
    stack.push(Symbol::Optional(TagName::Predicate));
    stack.push(Symbol::Next(Words::Start(TagName::Predicate)));
    stack.push(Symbol::Optional(TagName::Subject));
    stack.push(Symbol::Next(Words::Start(TagName::Subject)));
}

/// Pushes the content of a result table.
#[tactic(auto, unfolding(crate::specs::Options::content, crate::specs::Heights::need, crate::specs::Heights::element_need))]
fn push_table(stack: &mut Stack)
    requires { Fits (content TagName.Sparql ++ stack.old) }
    ensures { stack.new ≡ content TagName.Sparql ++ stack.old }
{
    push_finish(TagName::Sparql, stack);
    stack.push(Symbol::Open(TagName::Results));
    stack.push(Symbol::Next(Words::Start(TagName::Results)));
    stack.push(Symbol::Open(TagName::Head));
    stack.push(Symbol::Next(Words::Start(TagName::Head)));
}

/// Pushes the content of an element, and its finishing tag.
#[tactic(auto, unfolding(crate::specs::Options::content, crate::specs::Heights::need, crate::specs::Heights::element_need))]
fn push_content(name: TagName, stack: &mut Stack)
    requires { Fits (content name ++ stack.old) }
    ensures { stack.new ≡ content name ++ stack.old }
{
    match name {
        TagName::MessageType => {
            push_finish(name, stack);
            stack.push(Symbol::Next(Words::MessageTypes));
        }
        TagName::TransactionType => {
            push_finish(name, stack);
            stack.push(Symbol::Next(Words::Transactions));
        }
        TagName::Parameter => stack.push(Symbol::Blank),
        TagName::Triple => push_triple(stack),
        TagName::Sparql => push_table(stack),
        TagName::Variable => push_finish(name, stack),
        TagName::TripleList | TagName::Head | TagName::Results | TagName::Result => {
            stack.push(Symbol::Many(name));
        }
        TagName::Binding => {
            push_finish(name, stack);
            stack.push(Symbol::Term);
        }
        TagName::SsapMessage => stack.push(Symbol::Items(NONE_SEEN)),
        TagName::TransactionId
        | TagName::NodeId
        | TagName::SpaceId
        | TagName::Subject
        | TagName::Predicate
        | TagName::Object
        | TagName::Uri
        | TagName::Literal
        | TagName::Bnode => stack.push(Symbol::Text(name)),
    }
}

/// Pushes the rest of a declaration, and the message's element.
#[tactic(auto, unfolding(crate::specs::Choosing::pushed, crate::specs::Heights::need, crate::specs::Heights::element_need))]
fn push_declaration(stack: &mut Stack)
    requires { Fits (pushed Pushes.Declaration ++ stack.old) }
    ensures { stack.new ≡ pushed Pushes.Declaration ++ stack.old }
{
    stack.push(Symbol::Open(TagName::SsapMessage));
    stack.push(Symbol::Next(Words::Start(TagName::SsapMessage)));
    stack.push(Symbol::DeclarationEnd);
    stack.push(Symbol::Next(Words::VersionNumber));
    stack.push(Symbol::Next(Words::Equals));
    stack.push(Symbol::Spaced(Words::Version));
}

/// Pushes an attribute with a value of these words, and what follows it.
#[tactic(auto, unfolding(crate::specs::Heights::need))]
fn push_attribute(values: Words, then: Symbol, stack: &mut Stack)
    requires { Fits (Symbol.Next Words.Equals ∷ Symbol.Next values ∷ then ∷ stack.old) }
    ensures { stack.new ≡ Symbol.Next Words.Equals ∷ Symbol.Next values ∷ then ∷ stack.old }
{
    stack.push(then);
    stack.push(Symbol::Next(values));
    stack.push(Symbol::Next(Words::Equals));
}

/// Pushes an attribute with any value, and what follows it.
#[tactic(auto, unfolding(crate::specs::Heights::need))]
fn push_named(then: Symbol, stack: &mut Stack)
    requires { Fits (Symbol.Next Words.Equals ∷ Symbol.Quote ∷ then ∷ stack.old) }
    ensures { stack.new ≡ Symbol.Next Words.Equals ∷ Symbol.Quote ∷ then ∷ stack.old }
{
    stack.push(then);
    stack.push(Symbol::Quote);
    stack.push(Symbol::Next(Words::Equals));
}

/// Pushes the rest of a list's item that has a name, and of the list.
#[tactic(auto, unfolding(crate::specs::Choosing::pushed, crate::specs::Heights::need))]
fn push_listed(item: TagName, list: TagName, stack: &mut Stack)
    requires { Fits (pushed (Pushes.Listed item list) ++ stack.old) }
    ensures { stack.new ≡ pushed (Pushes.Listed item list) ++ stack.old }
{
    stack.push(Symbol::Many(list));
    push_named(Symbol::Open(item), stack);
    stack.push(Symbol::Spaced(Words::Name));
}

/// The headers that stand in a message once this one does.
fn with_header(name: TagName, seen: Seen) -> Seen
    ensures { result ≡ stood name seen }
{
    match name {
        TagName::MessageType => Seen {
            message_type: true,
            ..seen
        },
        TagName::TransactionType => Seen {
            transaction_type: true,
            ..seen
        },
        TagName::TransactionId => Seen {
            transaction_id: true,
            ..seen
        },
        TagName::NodeId => Seen {
            node_id: true,
            ..seen
        },
        TagName::SpaceId => Seen {
            space_id: true,
            ..seen
        },
        TagName::Parameter
        | TagName::TripleList
        | TagName::Triple
        | TagName::Subject
        | TagName::Predicate
        | TagName::Object
        | TagName::Sparql
        | TagName::Head
        | TagName::Variable
        | TagName::Results
        | TagName::Result
        | TagName::Binding
        | TagName::Uri
        | TagName::Literal
        | TagName::Bnode
        | TagName::SsapMessage => seen,
    }
}

/// Pushes the rest of a header, and of the message in which it stands from then on.
#[tactic(auto, unfolding(crate::specs::Choosing::pushed, crate::specs::Heights::need))]
fn push_header(name: TagName, seen: Seen, stack: &mut Stack)
    requires { Fits (pushed (Pushes.Header name seen) ++ stack.old) }
    ensures { stack.new ≡ pushed (Pushes.Header name seen) ++ stack.old }
{
    stack.push(Symbol::Items(with_header(name, seen)));
    stack.push(Symbol::Open(name));
}

impl Pushes {
    /// Pushes the symbols.
    #[tactic(auto, unfolding(crate::specs::Choosing::pushed, crate::specs::Heights::need))]
    pub(crate) fn push_on(self, stack: &mut Stack)
        requires { Fits (pushed self ++ stack.old) }
        ensures { stack.new ≡ pushed self ++ stack.old }
    {
        match self {
            Pushes::Nothing => {}
            Pushes::One(symbol) => stack.push(symbol),
            Pushes::Two(first, second) => {
                stack.push(second);
                stack.push(first);
            }
            Pushes::Header(name, seen) => push_header(name, seen, stack),
            Pushes::Declaration => push_declaration(stack),
            Pushes::Encoding => push_attribute(
                Words::EncodingName,
                Symbol::Next(Words::DeclarationFinish),
                stack,
            ),
            Pushes::Valued(name) => push_attribute(Words::Values(name), Symbol::Open(name), stack),
            Pushes::Named(symbol) => push_named(symbol, stack),
            Pushes::Listed(item, list) => push_listed(item, list, stack),
            Pushes::Within(symbol, name) => {
                push_finish(name, stack);
                stack.push(symbol);
            }
            Pushes::Content(name) => push_content(name, stack),
        }
    }
}
