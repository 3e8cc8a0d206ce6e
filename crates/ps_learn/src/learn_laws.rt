//! Laws about the definitions: a call does nothing, and its clauses are the law.
ghost use Rattle.ps_learn.specs.LearnLaws.{SpentAreFew, SpentAreUnrefuted, NothingFollowsAtRest};

/// A spent search has learned fewer clauses than there are assignments, so none is spent at a limit
/// of 2 to the number of variables or more. What hints alone refute is spent at no limit.
pub fn spent_searches()
    ensures few { SpentAreFew }
    ensures unrefuted { SpentAreUnrefuted }
{}

/// At an assignment under which no known constraint is violated or forces a literal, hints meet no
/// conflict. So what is learned from a conflict isn't false where its level was opened.
pub fn nothing_follows_at_rest()
    ensures { NothingFollowsAtRest }
{}
