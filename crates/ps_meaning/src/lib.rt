//! The words in which the contracts of the other crates speak: formulas, worlds, distributions and
//! the bounds that they meet; rational numbers in lowest terms, their laws, order and sums, their
//! least common denominators, and when a fraction of 128-bit numbers is too large.
#![tactic(auto)]

mod laws;
mod limits;
mod side;

pub use laws::{
    field_laws, lcm_laws, order_laws, row_laws, scaled_laws, sum_laws, weighted_sum_laws, zero_laws,
};
pub use limits::{LONGEST_NAME, PRINTED_LIMIT, limits_have_these_numbers};
pub use side::Side;
