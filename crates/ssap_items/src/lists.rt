use crate::{Param, RawCell, RawTriple};
use m3_terms::Items;

/// The parameters of a message, in their order.
pub type Params = Items<Param>;

/// Triples as a message spells them, in their order.
pub type RawTriples = Items<RawTriple>;

/// The bound cells of a row of a table, in their order.
pub type RawRow = Items<RawCell>;

/// The rows of a table, in their order.
pub type RawRows = Items<RawRow>;
