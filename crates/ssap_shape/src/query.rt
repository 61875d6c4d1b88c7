//! The parameters of a query.
ghost use Rattle.std.specs.Prelude.{◌≡◌, length};
ghost use Rattle.ssap_shape.specs.Templates.{triples_in};
ghost use Rattle.ssap_shape.specs.Table.{given as given_by};
ghost use Rattle.ssap_shape.specs.Queries.{names_sparql as sparql_named, language_in as language_by, language_of, is_other as other, is_query_in as query_in, is_wrong_type as wrong_type, is_wrong_query as wrong_query, is_other_type as other_type, is_wide_query as wide_query};
ghost use Rattle.ssap_shape.specs.declared.name.Name.TheVariants.{QueryType};

use crate::name::{Name, given, is_named};
use crate::templates::{is_graph, is_text};
use crate::update::names_templates;
use m3_terms::Text;
use ssap_items::{Body, Param, Params};

/// The most templates that a query may have.
const TEMPLATE_LIMIT: usize = 32;

/// The language that a query's type names.
#[derive(Clone, Copy)]
pub enum Language {
    Templates,
    Sparql,
    Other,
}

#[tactic(auto, unfolding(crate::specs::Queries::names_sparql))]
fn names_sparql(text: &Text) -> bool
    ensures { result ≡ sparql_named text.now }
{
    text.as_bytes().eq_ignore_ascii_case(b"sparql")
}

fn language_in(body: &Body) -> Language
    ensures { result ≡ language_by body.now }
{
    match body {
        Body::Text(text) if names_templates(text) => Language::Templates,
        Body::Text(text) if names_sparql(text) => Language::Sparql,
        Body::Text(_) | Body::Triples(_) | Body::Table(_) => Language::Other,
    }
}

/// The language that the type among the parameters names.
pub fn asked_language(params: &Params) -> Language
    ensures { result ≡ language_of (given_by params.now QueryType) }
{
    match given(params, Name::QueryType) {
        Some(param) => language_in(&param.body),
        None => Language::Other,
    }
}

fn is_query_in(language: Language, body: &Body) -> bool
    ensures { result ≡ query_in language body.now }
{
    match language {
        Language::Templates => is_graph(body),
        Language::Sparql => is_text(body),
        Language::Other => true,
    }
}

/// Whether the parameter is a type that is no text.
pub fn is_wrong_type(param: &Param) -> bool
    ensures { result ≡ wrong_type param.now }
{
    is_named(param, Name::QueryType) && !is_text(&param.body)
}

/// Whether the parameter is a query that isn't written in the language of the type among the parameters.
pub fn is_wrong_query(params: &Params, param: &Param) -> bool
    ensures { result ≡ wrong_query params.now param.now }
{
    is_named(param, Name::Query) && !is_query_in(asked_language(params), &param.body)
}

/// Whether the parameter is a type that names another language.
pub fn is_other_type(param: &Param) -> bool
    ensures { result ≡ other_type param.now }
{
    is_named(param, Name::QueryType) && matches!(language_in(&param.body), Language::Other)
}

fn template_count(body: &Body) -> usize
    ensures { result ≡ length (triples_in body.now) }
{
    match body {
        Body::Triples(triples) => triples.len(),
        Body::Text(_) | Body::Table(_) => 0,
    }
}

/// Whether the parameter is a query of more templates than a query may have.
pub fn is_wide_query(param: &Param) -> bool
    ensures { result ≡ wide_query param.now }
{
    is_named(param, Name::Query) && template_count(&param.body) > TEMPLATE_LIMIT
}
