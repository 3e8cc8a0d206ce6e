//! Laws about the definitions: a call does nothing, and its clauses are the law.
ghost use Rattle.ps_clause.specs.Laws.{ClausesSayExtensions, ClausesSayWorlds};
ghost use Rattle.ps_clause.specs.Laws.{ConstraintsSayClauses, ExtensionsAgree};
ghost use Rattle.ps_clause.specs.Laws.{AtomsDecideNodes, AtomsDecideEmptyForms, DecidingStays};
ghost use Rattle.ps_clause.specs.Laws.{IdleForceNothing, AllSetAreFull};
ghost use Rattle.ps_clause.specs.Laws.{WorldsHaveAtoms, ExtendedComeBack};
ghost use Rattle.ps_clause.specs.Laws.{NodesHaveClauses, OneMoreClause, ClausesAreInside};
ghost use Rattle.ps_clause.specs.Laws.{StartSaysBoth, StartIsWithin, UnmetRefutesGoal};

/// A full assignment meets every clause of the form exactly where it is the extension of the world
/// that its atoms' variables give (Tseitin 1968).
pub fn clauses_say_what_nodes_mean()
    ensures extends { ClausesSayExtensions }
    ensures given { ClausesSayWorlds }
    ensures constraints { ConstraintsSayClauses }
    ensures agrees { ExtensionsAgree }
{}

/// Where each atom's variable has a value, and no clause is violated or forces a literal, each
/// variable has a value: in the form of nodes, in one without clauses in which all variables are
/// atoms', and in one with a clause more.
pub fn atoms_decide_forms()
    ensures nodes { AtomsDecideNodes }
    ensures none { AtomsDecideEmptyForms }
    ensures more { DecidingStays }
    ensures idle { IdleForceNothing }
    ensures full { AllSetAreFull }
{}

/// The world that a partial assignment gives has the values of the atoms' variables; that of an
/// extension is the world that was extended, where each atom has a node.
pub fn worlds_of_assignments()
    ensures atoms { WorldsHaveAtoms }
    ensures extended { ExtendedComeBack }
{}

/// Each clause of the form of nodes is one of different literals of the nodes' variables; so is one
/// that is added.
pub fn clauses_are_of_variables()
    ensures nodes { NodesHaveClauses }
    ensures more { OneMoreClause }
    ensures inside { ClausesAreInside }
{}

/// What is known of a form and a goal at first is met where both are, and nowhere else.
pub fn forms_and_goals_are_known()
    ensures start { StartSaysBoth }
    ensures within { StartIsWithin }
    ensures refuted { UnmetRefutesGoal }
{}
