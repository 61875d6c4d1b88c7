//! The names of parameters, and the parameters of these names.
ghost use Rattle.std.specs.Prelude.{◌≡◌, option_copied};
ghost use Rattle.ssap_shape.specs.Table.{word, is_named as names, has as has_it, given as given_by};

use ssap_items::{Param, Params};

/// The names of the parameters of requests and of answers.
#[derive(Clone, Copy)]
pub enum Name {
    Credentials,
    InsertGraph,
    RemoveGraph,
    Confirm,
    QueryType,
    Query,
    SubscriptionId,
    Status,
    Results,
    Sequence,
    NewResults,
    ObsoleteResults,
}

impl Name {
    /// The name as it is written.
    #[tactic(auto, unfolding(crate::specs::Table::word))]
    pub fn as_bytes(self) -> &'static [u8]
        ensures { result.now ≡ word self }
    {
        match self {
            Name::Credentials => b"credentials",
            Name::InsertGraph => b"insert_graph",
            Name::RemoveGraph => b"remove_graph",
            Name::Confirm => b"confirm",
            Name::QueryType => b"type",
            Name::Query => b"query",
            Name::SubscriptionId => b"subscription_id",
            Name::Status => b"status",
            Name::Results => b"results",
            Name::Sequence => b"ind_sequence",
            Name::NewResults => b"new_results",
            Name::ObsoleteResults => b"obsolete_results",
        }
    }
}

/// Whether the parameter has this name.
pub fn is_named(param: &Param, name: Name) -> bool
    ensures { result ≡ names name param.now }
{
    param.name.as_bytes() == name.as_bytes()
}

/// Whether one of the parameters has this name.
pub fn has(params: &Params, name: Name) -> bool
    ensures { result ≡ has_it params.now name }
{
    params.as_slice().iter().any(|param| is_named(param, name))
}

/// The parameter of this name.
pub fn given(params: &Params, name: Name) -> Option<&Param>
    ensures { option_copied result ≡ given_by params.now name }
{
    params.as_slice().iter().find(|param| is_named(param, name))
}
