//! Why no problem is read.

/// What is expected at a place.
#[derive(Clone, Copy, Debug, PartialEq, Eq)]
pub enum What {
    /// `psat`, at the start.
    Psat,
    /// The version, behind `psat`.
    Version,
    /// `;`, behind the version, a relation, a query's probability and `end`.
    Semicolon,
    /// `P`, `query` or `end`, in version 1.
    Item,
    /// A sentence, `query` or `end`, in version 2.
    Item2,
    /// A number or `P`, behind the sign before a term.
    Term,
    /// `P`, behind `query` and behind a coefficient.
    Prob,
    /// `(`, behind `P`.
    Paren,
    /// An operand of a formula.
    Formula,
    /// A connective, `)`, or `given` where it may stand.
    Operator,
    /// `=`, `>=`, `<=` or `in`.
    Relation,
    /// The number of a relation, or one of an interval.
    Number,
    /// `[`, behind `in`.
    Bracket,
    /// `,`, behind an interval's first number.
    Comma,
    /// `]`, behind an interval's second number.
    BracketEnd,
}

/// Why no problem is read: for the form of its text, for a count of what the text states, or for
/// what follows it.
#[derive(Clone, Copy, Debug, PartialEq, Eq)]
pub enum ReadKind {
    // Of the form.
    /// No token of the version begins with the byte.
    BadByte,
    /// The token isn't one that is expected.
    Expected(What),
    /// A word of more than `LONGEST_WORD` bytes.
    NameTooLong,
    /// The version isn't spelled `1` or `2`.
    VersionUnknown,
    /// A denominator of 0.
    ZeroDenominator,
    /// A denominator of more than `GREATEST_DENOMINATOR`.
    DenominatorTooLarge,
    /// More than `MOST_DECIMALS` digits behind the point.
    TooManyDecimals,
    /// A value of more than 1, or of more than `GREATEST_NUMBER` in a linear sentence.
    NumberOutOfRange,
    /// The token would open one nesting more than `MOST_OPEN`.
    TooDeep,
    /// The token would begin one term more than `MOST_TERMS`.
    TooManyTerms,
    /// The bytes end where a token is expected.
    EndMissing,
    // Of a count.
    /// With the item there are more atoms than a problem may have.
    TooManyAtoms,
    /// With the item there are more nodes than a problem may have.
    TooManyNodes,
    /// With the item there are more bounds than a problem may have.
    TooManyBounds,
    /// With the item there are more queries than a problem may have.
    TooManyQueries,
    /// The whole numbers of a linear sentence are too large.
    LinearTooLarge,
    // Behind the text.
    /// Something follows the text and the blanks behind it.
    MoreAfterEnd,
}
