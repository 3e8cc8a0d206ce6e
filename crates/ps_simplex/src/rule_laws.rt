//! The laws of Bland's rule.

ghost use Rattle.ps_simplex.specs.RuleLaws.{RuleNamesOnePivot, RaysDontImprove, CombinationsPrice};
ghost use Rattle.ps_simplex.specs.RuleLaws.{PivotsCompose, RuleReadsTheTable, PivotsReadTheWidth};

/// At a basis whose table is kept by pivots the rule names one pivot at most.
pub fn one_pivot()
    ensures one { RuleNamesOnePivot }
{}

/// A column that carries more than its cost has an entry above 0: where no cost is below 0; and
/// where a row has no entry below 0 in the basic columns, and each column costs 0, or -1 with entry
/// 1 in that row.
pub fn no_ray()
    ensures none { RaysDontImprove }
{}

/// A combination of a column's whole entries by whole multiples of the multipliers, less the same
/// multiple of its cost, is that multiple of what the column carries above its cost. So of a slack
/// or a world it is at least 1 exactly where that column improves; at rest none of these has one of
/// at least 1, and none carries more than its cost.
pub fn combinations()
    ensures priced { CombinationsPrice }
{}

/// Lawful pivots go on from the lawful pivots before them.
pub fn composed_pivots()
    ensures composed { PivotsCompose }
{}

/// What the rule says of a table, and which pivots are lawful, is told by the table's own rows and
/// columns, their artificials and costs.
pub fn same_rule()
    ensures tables { RuleReadsTheTable }
    ensures pivots { PivotsReadTheWidth }
{}
