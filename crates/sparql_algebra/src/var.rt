use m3_terms::Items;

/// A variable of a query, by its number. A query has at most 16 variables, so the number is below 16.
#[derive(Clone, Copy, Debug, PartialEq, Eq, PartialOrd, Ord, Hash)]
pub struct Var(pub u8);

/// Variables in a row, of which some may be equal.
pub type VarList = Items<Var>;
