//! Laws about the definitions: a call does nothing, and its clauses are the law.
ghost use Rattle.ps_learn.specs.TrailLaws.{RanksAreBounded, RanksRise};

/// The rank of a trail is below 2 to the number of variables, and rises where an implied literal
/// takes the place of a decided one.
pub fn ranks_rise()
    ensures bounded { RanksAreBounded }
    ensures rise { RanksRise }
{}
