//! Laws about the definitions: a call does nothing, and its clauses are the law.
ghost use Rattle.ps_check.specs.Laws.{ClaimsAreDecidedByLaterSteps, LinesAreJudgedAsAnswers};

/// A dual without its steps is refused for the reason that speaks against it with them, or for want
/// of steps; then the steps, taken one after another, say what the whole dual does.
pub fn later_steps_decide_claims()
    ensures decided { ClaimsAreDecidedByLaterSteps }
{}

/// Where the lines of an answer are taken one by one, what is answered behind the last is what is
/// answered of the whole answer.
pub fn lines_are_judged_as_answers()
    ensures judged { LinesAreJudgedAsAnswers }
{}
