//! The parameters of an update.
ghost use Rattle.std.specs.Prelude.{◌≡◌};
ghost use Rattle.ssap_shape.specs.Updates.{names_templates as templates_named, is_graph_named as graph_named, is_foreign as foreign, says_yes as yes, says_no as no, is_flag as flag, is_wrong_graph as wrong_graph, is_wrong_flag as wrong_flag, is_wanted_by as wanted_by, is_wanted as wanted};
ghost use Rattle.ssap_shape.specs.Table.{given as given_by};
ghost use Rattle.ssap_shape.specs.declared.name.Name.TheVariants.{Confirm};

use crate::name::{Name, given, is_named};
use crate::templates::is_graph;
use m3_terms::Text;
use ssap_items::{Body, Param, Params};

/// Whether the text names the template language.
#[tactic(auto, unfolding(crate::specs::Updates::names_templates))]
pub fn names_templates(text: &Text) -> bool
    ensures { result ≡ templates_named text.now }
{
    text.as_bytes().eq_ignore_ascii_case(b"RDF-M3")
}

/// Whether the parameter is a graph to insert or to remove.
pub fn is_graph_named(param: &Param) -> bool
    ensures { result ≡ graph_named param.now }
{
    is_named(param, Name::InsertGraph) || is_named(param, Name::RemoveGraph)
}

/// Whether the parameter has another encoding than that of templates.
pub fn is_foreign(param: &Param) -> bool
    ensures { result ≡ foreign param.now.encoding }
{
    match &param.encoding {
        Some(encoding) => !names_templates(encoding),
        None => false,
    }
}

#[tactic(auto, unfolding(crate::specs::Updates::says_yes))]
fn says_yes(text: &Text) -> bool
    ensures { result ≡ yes text.now }
{
    text.as_bytes() == b"TRUE".as_slice() || text.as_bytes() == b"true".as_slice()
}

#[tactic(auto, unfolding(crate::specs::Updates::says_no))]
fn says_no(text: &Text) -> bool
    ensures { result ≡ no text.now }
{
    text.as_bytes() == b"FALSE".as_slice() || text.as_bytes() == b"false".as_slice()
}

fn is_flag(body: &Body) -> bool
    ensures { result ≡ flag body.now }
{
    match body {
        Body::Text(text) => says_yes(text) || says_no(text),
        Body::Triples(_) | Body::Table(_) => false,
    }
}

/// Whether the parameter is a graph that is looked at and is none.
pub fn is_wrong_graph(param: &Param) -> bool
    ensures { result ≡ wrong_graph param.now }
{
    is_graph_named(param) && !is_foreign(param) && !is_graph(&param.body)
}

/// Whether the parameter is a flag that says neither yes nor no.
pub fn is_wrong_flag(param: &Param) -> bool
    ensures { result ≡ wrong_flag param.now }
{
    is_named(param, Name::Confirm) && !is_flag(&param.body)
}

fn is_wanted_by(body: &Body) -> bool
    ensures { result ≡ wanted_by body.now }
{
    match body {
        Body::Text(text) => !says_no(text),
        Body::Triples(_) | Body::Table(_) => true,
    }
}

/// Whether a confirm of success is wanted.
pub fn is_wanted(params: &Params) -> bool
    ensures { result ≡ wanted (given_by params.now Confirm) }
{
    match given(params, Name::Confirm) {
        Some(param) => is_wanted_by(&param.body),
        None => true,
    }
}
