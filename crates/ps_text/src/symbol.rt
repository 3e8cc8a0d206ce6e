//! Symbols.

/// A symbol.
#[derive(Clone, Copy, Debug, PartialEq, Eq)]
pub enum Symbol {
    /// `(`.
    Open,
    /// `)`.
    Close,
    /// `[`.
    OpenBracket,
    /// `]`.
    CloseBracket,
    /// `,`.
    Comma,
    /// `;`.
    Semicolon,
    /// `!`.
    Bang,
    /// `&`.
    Ampersand,
    /// `|`.
    Bar,
    /// `->`.
    Arrow,
    /// `<->`.
    DoubleArrow,
    /// `=`.
    Equals,
    /// `>=`.
    GreaterEquals,
    /// `<=`.
    LessEquals,
    /// `+`.
    Plus,
    /// `-`.
    Minus,
}
