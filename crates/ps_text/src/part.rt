//! Where a text stands between two tokens.

/// The part of a text that is next.
#[derive(Clone, Copy, Debug, PartialEq, Eq)]
pub enum Part {
    /// `psat`, at the start.
    Psat,
    /// The version, behind `psat`.
    Version,
    /// The `;` behind the version.
    HeadEnd,
    /// The first token of an item, or `end`.
    Item,
    /// The `P` behind `query`.
    QueryProb,
    /// A term of a linear sentence, behind the sign before it.
    Term,
    /// The `P` behind a coefficient.
    TermProb,
    /// The `(` behind `P`.
    Paren,
    /// The next operand of a formula.
    Operand,
    /// What stands behind an operand.
    Operator,
    /// The relation behind the probability of a sentence or behind a term, or the sign before the
    /// next term.
    Relation,
    /// The number of a relation with one bound.
    Number,
    /// The `;` behind an item.
    ItemEnd,
    /// The `[` behind `in`.
    Bracket,
    /// An interval's first number.
    First,
    /// The `,` behind an interval's first number.
    Comma,
    /// An interval's second number.
    Second,
    /// The `]` behind an interval's second number.
    BracketEnd,
    /// The `;` behind `end`.
    TextEnd,
    /// The text is whole: nothing more is expected.
    Done,
}

/// What is open in a formula.
#[derive(Clone, Copy, Debug, PartialEq, Eq)]
pub enum Opening {
    /// A `!`, during its operand.
    Not,
    /// A `(`, up to its `)`.
    Group,
    /// A `->`, during its right side.
    Arrow,
}
