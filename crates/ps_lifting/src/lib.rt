//! Systems of linear equations with whole coefficients, solved exactly by p-adic lifting (J. D.
//! Dixon, "Exact solution of linear equations using p-adic expansions", 1982): an inverse modulo a
//! prime gives the digits of the solution modulo the prime's fourth power, and its fractions, with
//! one denominator, are found again by Euclid's algorithm (P. S. Wang, "A p-adic algorithm for
//! univariate partial fractions", 1981). What is found is tested in whole numbers, and answered
//! only where it solves the system.
#![tactic(auto)]

mod checking;
mod inverse;
mod lifting;
mod number;
mod reconstruction;
mod residue;
mod solution;
mod solving;
mod wide;

pub use inverse::{Inverse, inverse_of};
pub use solution::Solution;
pub use solving::solve;
