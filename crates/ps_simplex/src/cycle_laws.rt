//! The laws of lists of pivots by Bland's rule.

ghost use Rattle.ps_simplex.specs.CycleLaws.{ReducedCostsCombine, PivotsMeetNoBasisTwice, PivotsAreFew};
ghost use Rattle.ps_simplex.specs.CycleLaws.{WorldsAreFew, WaysGrow};

/// What a column carries above its cost in one table of a system is what it carries so in another
/// table of that system, less what the first table's basic columns carry so in the other, times
/// the column's entries in the first.
pub fn reduced_costs()
    ensures combined { ReducedCostsCombine }
{}

/// On the way of lawful pivots from a table at which a phase may start no basis comes twice, not
/// even with the same columns in other rows (R. G. Bland, "New finite pivoting rules for the
/// simplex method", Mathematics of Operations Research 2, 1977).
pub fn no_basis_twice()
    ensures none { PivotsMeetNoBasisTwice }
{}

/// So they are fewer than the ways to choose as many columns as there are rows.
pub fn few_pivots()
    ensures few { PivotsAreFew }
{}

/// Worlds of so many atoms, none of which stands twice, are at most the power of 2 to these.
pub fn few_worlds()
    ensures few { WorldsAreFew }
{}

/// The ways to choose, from one number of things to the next.
pub fn more_ways()
    ensures grow { WaysGrow }
{}
