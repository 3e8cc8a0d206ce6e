//! What a text has too much of.

/// What a text has too much of.
#[derive(Clone, Copy, Debug, PartialEq, Eq)]
pub enum Excess {
    /// Atoms.
    Atoms,
    /// Nodes of formulas.
    Nodes,
    /// Bounds.
    Bounds,
    /// Queries.
    Queries,
    /// The numbers of a linear sentence.
    Numbers,
}
