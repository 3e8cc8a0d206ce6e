//! The laws of runs.

ghost use Rattle.ps_runs.specs.RunLaws.{CombinationsArePrices, FeasibleTablesGiveModels};
ghost use Rattle.ps_runs.specs.RunLaws.{RestingTablesGiveDuals, TablesOfRuns, CostsOfPhases};
ghost use Rattle.ps_runs.specs.RunLaws.{EvidenceRow, PricedWorldsMove, EventsCompose};
ghost use Rattle.ps_runs.specs.RunLaws.{GainsAreValues, EndsAreValid, WorldsWeighTheirRows};
ghost use Rattle.ps_runs.specs.RunLaws.{PricingsAreOfTheTable, KeptSentences};
ghost use Rattle.ps_runs.specs.RunLaws.{ReachedStages};

/// The combination of a table's dual in a world is a whole positive multiple of what the
/// multipliers price the world's column above its cost. So it is at least 1 exactly where the
/// column is priced above its cost.
pub fn reduced_costs()
    ensures prices { CombinationsArePrices }
{}

/// Where each basic artificial has value 0, the values of the basic worlds, each times the least
/// common multiple of the denominators, are a distribution that meets the bounds and gives the
/// evidence a weight, on at most one world more than there are bounds. At rest the multipliers,
/// each times the least common multiple of their denominators, have the signs of a dual; where
/// phase one rests its head is at least 1; in a side the model reaches head over top.
///
/// In the model a world has the weight of the row in which it is basic.
pub fn phase_ends()
    ensures models { FeasibleTablesGiveModels }
    ensures weights { WorldsWeighTheirRows }
    ensures duals { RestingTablesGiveDuals }
{}

/// The homes' table is one of the run, and so is a table with a world more. In phase one an
/// artificial costs 1 and all else 0; in a side homes cost 0, and worlds 0 or 1, or 0 or -1; row 0
/// is 0 or 1 on worlds, 1 where the cost is -1, and never below 0 on homes.
pub fn phase_starts()
    ensures tables { TablesOfRuns }
    ensures costs { CostsOfPhases }
    ensures row { EvidenceRow }
{}

/// A world that is priced above its cost at a resting table isn't in the pool, and once its column
/// is there the table is moving.
pub fn priced_worlds()
    ensures moving { PricedWorldsMove }
{}

/// Events that follow lawful ones lead on, and their pivots sum.
pub fn composed_runs()
    ensures composed { EventsCompose }
{}

/// Each stage to which lawful events lead from a start, phase after phase, has exactly one table.
/// No world stands twice in its pool, and a world that is priced there is new to the pool.
pub fn reached_stages()
    ensures reached { ReachedStages }
{}

/// The combination of a dual over the variables of the nodes has at a world's extension its value
/// in the world. So what no assignment that meets the clauses is above, no world is above, and what
/// is found over the variables is found of the table.
pub fn gains()
    ensures values { GainsAreValues }
    ensures pricings { PricingsAreOfTheTable }
{}

/// The model of a table at which phase one is due to end shows that the bounds are consistent. A
/// dual with the numbers of a resting table, whose steps refute that its combination is at least 1,
/// is a valid one; in phase one it shows that nothing is allowed, and in a side, with the model of
/// the table, that head over top is tight.
pub fn valid_ends()
    ensures valid { EndsAreValid }
{}

/// A run over some of a problem's sentences is one of the problem that has these alone: it is in
/// order, and the whole problem where all are kept. A dual that is refuted over these alone is so
/// over the whole problem, where its multipliers of the other bounds are 0.
pub fn kept_sentences()
    ensures kept { KeptSentences }
{}
