//! Marks.

/// One mark of a formula in postfix order: an operator takes the last one or two formulas before
/// it. A name goes by the number that the draft gave it.
#[derive(Clone, Copy, Debug, PartialEq, Eq)]
pub enum Mark {
    /// `true`.
    True,
    /// `false`.
    False,
    /// The atom of this name.
    Name(u32),
    /// `!` over the last formula.
    Not,
    /// `&` between the last two formulas.
    And,
    /// `|` between them.
    Or,
    /// `->` between them.
    Implies,
    /// `<->` between them.
    Iff,
}
