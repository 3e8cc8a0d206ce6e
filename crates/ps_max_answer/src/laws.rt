//! Laws about the definitions: a call does nothing, and its clauses are the law.
ghost use Rattle.ps_max_answer.specs.Laws.{UnfaultedAreShown, FoundAreUnfaulted};

/// An answer that no reason is against is right.
pub fn unfaulted_answers_are_right()
    ensures { UnfaultedAreShown }
{}

/// No reason is against what a search for an optimum answers.
pub fn found_answers_are_accepted()
    ensures { FoundAreUnfaulted }
{}
