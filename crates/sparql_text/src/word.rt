ghost use Rattle.std.specs.Prelude.{◌≡◌};
ghost use Rattle.sparql_text.specs.Tokens.{spelling};

/// A token with one spelling: a sign or a keyword.
#[derive(Clone, Copy, Debug, PartialEq, Eq)]
pub enum Word {
    /// `{`
    OpenBrace,
    /// `}`
    CloseBrace,
    /// `(`
    OpenParen,
    /// `)`
    CloseParen,
    /// `.`
    Dot,
    /// `;`
    Semicolon,
    /// `,`
    Comma,
    /// `*`
    Star,
    /// `=`
    Equal,
    /// `!=`
    NotEqual,
    /// `<`
    Less,
    /// `>`
    Greater,
    /// `<=`
    LessEqual,
    /// `>=`
    GreaterEqual,
    /// `!`
    Not,
    /// `&&`
    And,
    /// `||`
    Or,
    /// `a`, the one keyword whose case counts
    A,
    Prefix,
    Select,
    Distinct,
    Where,
    Union,
    Optional,
    Filter,
    Bound,
    IsIri,
    IsUri,
    IsLiteral,
    SameTerm,
    Str,
    Contains,
    StrStarts,
}

impl Word {
    /// How the word is written, a keyword in capitals but for `a`.
    #[tactic(auto, unfolding(crate::specs::Tokens::spelling))]
    pub fn spelling(self) -> &'static [u8]
        ensures { result.now ≡ spelling self }
    {
        match self {
            Word::OpenBrace => b"{",
            Word::CloseBrace => b"}",
            Word::OpenParen => b"(",
            Word::CloseParen => b")",
            Word::Dot => b".",
            Word::Semicolon => b";",
            Word::Comma => b",",
            Word::Star => b"*",
            Word::Equal => b"=",
            Word::NotEqual => b"!=",
            Word::Less => b"<",
            Word::Greater => b">",
            Word::LessEqual => b"<=",
            Word::GreaterEqual => b">=",
            Word::Not => b"!",
            Word::And => b"&&",
            Word::Or => b"||",
            Word::A => b"a",
            Word::Prefix => b"PREFIX",
            Word::Select => b"SELECT",
            Word::Distinct => b"DISTINCT",
            Word::Where => b"WHERE",
            Word::Union => b"UNION",
            Word::Optional => b"OPTIONAL",
            Word::Filter => b"FILTER",
            Word::Bound => b"BOUND",
            Word::IsIri => b"ISIRI",
            Word::IsUri => b"ISURI",
            Word::IsLiteral => b"ISLITERAL",
            Word::SameTerm => b"SAMETERM",
            Word::Str => b"STR",
            Word::Contains => b"CONTAINS",
            Word::StrStarts => b"STRSTARTS",
        }
    }
}
