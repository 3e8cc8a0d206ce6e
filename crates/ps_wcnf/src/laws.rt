//! Laws about the definitions: a call does nothing, and its clauses are the law.
ghost use Rattle.ps_wcnf.specs.Laws.{AllowedExtend, NoneHasMore, ExtendedAreAllowed};
ghost use Rattle.ps_wcnf.specs.Laws.{RefutedAreOptimal, RefutedAllowNone};

/// Each allowed assignment extends to one whose value is 1 plus the weights of its satisfied soft
/// clauses, and no extension has more. So where no value is greater than that, no assignment costs
/// less, and where none is at least 1, none is allowed.
pub fn values_tell_costs()
    ensures extend { AllowedExtend }
    ensures most { NoneHasMore }
    ensures allowed { ExtendedAreAllowed }
    ensures optimal { RefutedAreOptimal }
    ensures none { RefutedAllowNone }
{}
