use crate::Word;

/// What the grammar sees of a token.
#[derive(Clone, Copy, Debug, PartialEq, Eq)]
pub enum Kind {
    Iri,
    /// A prefixed name without a local part, so a prefix with its `:`.
    Bare,
    /// A prefixed name with a local part.
    Name,
    Variable,
    String,
    Fixed(Word),
}

/// What is still to come of a query.
#[derive(Clone, Copy, Debug, PartialEq, Eq)]
pub enum Symbol {
    /// The rest of the declarations, and the query behind them.
    Start,
    /// The prefix of a declaration.
    Prefix,
    /// The IRI of a declaration.
    Iri,
    /// Behind SELECT: DISTINCT perhaps, the columns, and the pattern.
    Select,
    /// The columns, and the pattern.
    Columns,
    /// Behind a column: more of them, and the pattern.
    MoreColumns,
    /// WHERE perhaps, and the pattern.
    Where,
    /// A group.
    Open,
    /// Triple patterns perhaps, elements, and the `}` of their group.
    Group,
    /// Behind an element: a dot perhaps, and then as `Group`.
    Behind,
    /// Behind a group: UNION and groups perhaps, and then as `Behind`.
    Alts,
    /// The verb of a triple pattern.
    Verb,
    /// The object of a triple pattern.
    Object,
    /// Behind an object: what else is said, and the rest of the group.
    Objects,
    /// Behind `;`: a verb and its objects perhaps, what else is said, and the rest of the group.
    Said,
    /// Behind FILTER: its condition.
    Filter,
    /// A condition and what is joined to it, and the `)` behind that.
    Condition,
    /// Behind a condition: what is joined to it, and the `)` behind that.
    Joined,
    /// Behind an operand with which a condition begins: a comparison perhaps, and then as `Joined`.
    Compared,
    /// What `!` stands before.
    Prim,
    /// An operand.
    Operand,
    /// A variable, an IRI or a string.
    Argument,
    /// A variable.
    Variable,
    /// `(`
    OpenParen,
    /// `)`
    CloseParen,
    /// `,`
    Comma,
}
