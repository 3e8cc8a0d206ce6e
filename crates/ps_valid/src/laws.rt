//! Laws about the definitions: a call does nothing, and its clauses are the law.
ghost use Rattle.ps_valid.specs.Laws.{RefusalsAreSingle};
ghost use Rattle.ps_valid.specs.Laws.{AnswersWithinAreSmall, ReportsAreSmall};
ghost use Rattle.ps_valid.specs.Laws.{LinesWithinAreShort};

/// An answer is refused for at most one reason, against one claim.
pub fn refusals_are_single()
    ensures single { RefusalsAreSingle }
{}

/// The answer of a report is within the limits that the check asks, and so is each one whose lines
/// are within a report's.
pub fn reports_are_small()
    ensures answer { AnswersWithinAreSmall }
    ensures report { ReportsAreSmall }
{}

/// Where each line of an answer is within the limits of a report, each is short enough to be
/// written.
pub fn report_lines_are_short()
    ensures short { LinesWithinAreShort }
{}
