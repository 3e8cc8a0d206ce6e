//! The laws of a run's tables.

ghost use Rattle.ps_runs.specs.PhaseLaws.{NewTablesStart, RunTablesAreReady, PhasesGoOn};
ghost use Rattle.ps_runs.specs.PhaseLaws.{SettledStages, RefusalsAreLicensed, PhaseOneEndsLawfully, CostsGrow};
ghost use Rattle.ps_runs.specs.PhaseLaws.{PricedWorldsTakePivots, SidesEndLawfully, NodesGiveTheSetting};
ghost use Rattle.ps_runs.specs.PhaseLaws.{LawfulAnswersAreCounted, TablesGiveTheirStage, VerdictsAreAnswers};

/// A new table of the homes is one of the run, at its start. As the rule sees it a run's table is
/// that of its setting, and it is ready for each phase with the phase's costs: for the sides where
/// each basic artificial has value 0. The costs of a longer pool have the world's behind them. The
/// dual and the model that are made of a table are those of its stage.
pub fn run_tables()
    ensures new { NewTablesStart }
    ensures ready { RunTablesAreReady }
    ensures costs { CostsGrow }
    ensures stages { TablesGiveTheirStage }
{}

/// A phase goes on by the pivots of `settle`, and by a world that is priced: this isn't in the
/// pool, and a pivot follows, unless none is left or a number is too wide.
pub fn phases_go_on()
    ensures go_on { PhasesGoOn }
    ensures pivots { PricedWorldsTakePivots }
    ensures stages { SettledStages }
{}

/// A number that is too wide at a place of a run's table licenses an open part.
pub fn licences()
    ensures licensed { RefusalsAreLicensed }
{}

/// Where phase one has come from the start to a stage, the answer that is due there is lawful; and
/// so for a side that has come from where the phase before it ended. A lawful answer that is open
/// for conflicts has as many steps as their limit. Where there is no query the verdict is the whole
/// answer.
pub fn lawful_ends()
    ensures lawful { PhaseOneEndsLawfully }
    ensures sides { SidesEndLawfully }
    ensures counted { LawfulAnswersAreCounted }
    ensures alone { VerdictsAreAnswers }
{}

/// The columns, the homes and the costs that are told by the truth values of a problem's nodes are
/// those of its bounds and of the query.
pub fn node_columns()
    ensures setting { NodesGiveTheSetting }
{}
