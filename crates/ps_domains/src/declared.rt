//! Declared constants and predicates.
use ps_io::List;

/// A predicate: its name, and how many terms it takes.
#[derive(Debug, Drop)]
pub struct Predicate {
    /// Its name.
    pub name: List<u8>,
    /// How many terms it takes.
    pub arity: u8,
}

/// The constants and predicates that are declared, in order.
#[derive(Debug, Drop)]
pub struct Declared {
    /// The names of the constants.
    pub constants: List<List<u8>>,
    /// The predicates.
    pub predicates: List<Predicate>,
}

/// A `(` of a formula that is open.
#[derive(Debug, Drop)]
pub enum Scope {
    /// One around a formula.
    Group,
    /// One behind a quantifier, with the variable that it binds.
    Quantified(List<u8>),
}
