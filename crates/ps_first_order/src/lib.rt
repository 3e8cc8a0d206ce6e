//! First-order formulas over listed constants: signatures, structures, and formulas as numbered
//! parts.
#![tactic(auto)]

mod limits;
mod part;

pub use limits::{
    MOST_ARITY, MOST_CONSTANTS, MOST_PREDICATES, UNDERSCORE, limits_have_these_numbers,
};
pub use part::{Argument, Connective, FirstOrderParts, Part, Quantifier};
