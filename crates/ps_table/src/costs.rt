//! Costs of columns.
ghost use Rattle.std.specs.Prelude.{◌≡◌, length, pos, negsuc, ◌≤ℤ◌};
ghost use Rattle.ps_meaning.specs.Rational.{fraction, mul};
ghost use Rattle.ps_table.specs.Tableau.{number_in};
ghost use Rattle.ps_table.specs.Pricing.{HasSmallCosts, HasCostOf, cost_number};

use crate::col::Col;
use ps_frac::Fraction;
use ps_io::List;

/// A list of costs.
pub type CostList = List<i8>;

/// The costs of the columns, from -1 to 1.
#[derive(Drop)]
pub struct Costs {
    /// The costs of the homes, by row.
    pub homes: CostList,
    /// The costs of the worlds, by number.
    pub worlds: CostList,
}

/// The cost of a column.
pub(crate) fn cost_of(costs: &Costs, col: Col) -> i8
    requires small { HasSmallCosts costs.now }
    requires priced { HasCostOf costs.now col }
    ensures value { result ≡ cost_number costs.now (number_in (length costs.now.homes) col) }
    ensures low { negsuc 0 ≤ℤ result }
    ensures high { result ≤ℤ pos 1 }
{
    match col {
        Col::Home(row) => costs.homes.as_slice()[row as usize],
        Col::World(number) => costs.worlds.as_slice()[number as usize - 1],
    }
}

/// `cost * entry`, of a cost from -1 to 1.
pub(crate) fn cost_times(cost: i8, entry: &Fraction) -> Fraction
    requires low { negsuc 0 ≤ℤ cost }
    requires high { cost ≤ℤ pos 1 }
    ensures value { result ≡ mul (fraction cost 1) entry.now }
{
    if cost == 1 {
        *entry
    } else if cost == 0 {
        Fraction::new(0, 1)
    } else {
        entry.neg()
    }
}
