//! The simplex method over the table of a basis: what belongs to a table, what a pivot and a new
//! column keep, what it says of costs; and Bland's rule: the phases of a run, improving columns,
//! entering and leaving, and lists of lawful pivots, and that it makes no cycle: between two tables
//! of one phase no basis comes twice.
//!
//! A call of a law does nothing: its contract is the law. A table, and the rows and columns that it
//! stands for, are functions of row and column; column 0 is the right side, columns 1 to n are the
//! homes.
#![tactic(auto)]

mod basis_laws;
mod cycle_laws;
mod enough;
mod phase;
mod rule_laws;

pub use basis_laws::{
    home_table, one_solution, one_table, pivot_keeps, prices, same_tables, wider_table,
};
pub use cycle_laws::{few_pivots, few_worlds, more_ways, no_basis_twice, reduced_costs};
pub use enough::{MOST_PIVOTS, enough_pivots};
pub use phase::Phase;
pub use rule_laws::{combinations, composed_pivots, no_ray, one_pivot, same_rule};
