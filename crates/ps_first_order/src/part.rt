//! First-order formulas as numbered parts.
use ps_io::List;

/// A term, by its number: a constant or a variable.
#[derive(Clone, Copy, Debug, PartialEq, Eq)]
pub enum Argument {
    /// The constant of this number.
    Constant(u32),
    /// The variable of this number.
    Variable(u32),
}

/// What joins two formulas.
#[derive(Clone, Copy, Debug, PartialEq, Eq)]
pub enum Connective {
    /// `&`.
    And,
    /// `|`.
    Or,
    /// `->`.
    Implies,
    /// `<->`.
    Iff,
}

/// What binds a variable.
#[derive(Clone, Copy, Debug, PartialEq, Eq)]
pub enum Quantifier {
    /// `forall`.
    ForAll,
    /// `exists`.
    Exists,
}

/// The outermost part of a formula. Operands are numbers of parts that stand before it.
#[derive(Clone, Copy, Debug, PartialEq, Eq)]
pub enum Part {
    /// `true`.
    True,
    /// `false`.
    False,
    /// The predicate of the first number, with the terms from the second number on, up to the third.
    Holds(u32, u32, u32),
    /// `!` over an operand.
    Not(u32),
    /// A connective between two operands.
    Joined(Connective, u32, u32),
    /// A quantifier with its variable, over an operand.
    Bound(Quantifier, u32, u32),
}

/// First-order formulas as numbered parts, over names by number.
#[derive(Drop)]
pub struct FirstOrderParts {
    /// The names of the constants in order.
    pub constants: List<List<u8>>,
    /// The names of the predicates.
    pub predicates: List<List<u8>>,
    /// The names of the variables, each once.
    pub variables: List<List<u8>>,
    /// The terms of all predicates.
    pub arguments: List<Argument>,
    /// The parts of all formulas.
    pub parts: List<Part>,
}
