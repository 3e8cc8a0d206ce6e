//! What is still to be written of a formula.
use crate::connective::Connective;

/// A part of a formula that is still to be written.
#[derive(Clone, Copy, Debug, PartialEq, Eq)]
pub(crate) enum Task {
    /// The formula of a node, where an operand of this level is required.
    Formula { node: u32, level: u32 },
    /// A connective between its operands.
    Connective(Connective),
    /// The `)` behind a formula that needs parentheses.
    Close,
}
