//! What the numbering of a text's items keeps. A call does nothing: its contract is the law.
ghost use Rattle.ps_problem.specs.Rows.{BoundsAreRows};
ghost use Rattle.ps_problem.specs.Laws.{BoundsAreStated, QueriesAreAsked, CanonicalTextsAreReread};

/// The problem of some items says what they say: its bounds are those of the statements and its
/// queries are the questions, with each name replaced by its number.
pub fn numbering_keeps_meaning()
    ensures bounds { BoundsAreStated }
    ensures queries { QueriesAreAsked }
{}

/// The canonical text of a problem is read as the problem.
pub fn canonical_text_is_reread()
    ensures { CanonicalTextsAreReread }
{}

/// A bound of a problem is met by exactly the distributions that meet its row.
pub fn bounds_are_rows()
    ensures { BoundsAreRows }
{}
