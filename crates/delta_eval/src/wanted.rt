use sparql_algebra::Query;
use triple_index::IdPatterns;

/// What is wanted of the graph again and again.
#[derive(Drop)]
pub enum Wanted {
    /// The triples that fit at least one of the templates, as rows of three numbers.
    Templates(IdPatterns),
    /// The answer to a query.
    Select(Query),
}
