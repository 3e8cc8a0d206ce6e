//! Laws about the definitions: a call does nothing, and its clauses are the law.
ghost use Rattle.ps_claims.specs.ClaimLaws.{ProblemsHaveRows, DualsExcludeAll, KeptBoundsExcludeAll};
ghost use Rattle.ps_claims.specs.ClaimLaws.{DualsBoundBelow, DualsBoundAbove};
ghost use Rattle.ps_claims.specs.ClaimLaws.{CombinationsAreSums, CombinationsAreSmall, GoalsSayAtLeastOne};
ghost use Rattle.ps_claims.specs.ClaimLaws.{RefutedGoalsBoundCombinations, HeadsAreQuotients};
ghost use Rattle.ps_claims.specs.ClaimLaws.{DualsAreFaultlessOrFaulty, FaultlessDualsHaveNoFault};
ghost use Rattle.ps_claims.specs.ClaimLaws.{ValidAnswersAreRight};
ghost use Rattle.ps_claims.specs.ClaimLaws.{ValidAnswersHaveValidClaims, AnswersAreValidOrRefused};
ghost use Rattle.ps_claims.specs.ClaimLaws.{ValidAnswersAreNotRefused};

/// Each bound of a problem, plain or linear, is met by exactly the distributions that meet its row.
pub fn problems_have_rows()
    ensures rows { ProblemsHaveRows }
{}

/// Weak duality over the rows of bounds. Where no multiplier is of the wrong sign and the combination is above 0 in no
/// world, what a dual's head says is true of every distribution: none is allowed, even by those
/// bounds alone whose multiplier isn't 0, or the query's probability is on its side of the value.
pub fn duals_bound_probabilities()
    ensures nothing { DualsExcludeAll }
    ensures kept { KeptBoundsExcludeAll }
    ensures lower { DualsBoundBelow }
    ensures upper { DualsBoundAbove }
{}

/// A combination over nodes has at a world's extension the value of the combination in the world,
/// and its goal is met there exactly where this is at least 1. With numbers of at most 2^90 in
/// size, its own sum in size to at most 2^120.
pub fn combinations_are_sums()
    ensures value { CombinationsAreSums }
    ensures size { CombinationsAreSmall }
    ensures goal { GoalsSayAtLeastOne }
{}

/// Where no multiplier is of the wrong sign and steps refute the goal of a combination, the
/// combination is above 0 in no world.
pub fn refuted_goals_bound_combinations()
    ensures refuted { RefutedGoalsBoundCombinations }
{}

/// Either nothing is wrong with a dual that has a multiplier for each bound, or there is a first
/// fault, never both.
pub fn duals_are_faultless_or_not()
    ensures either { DualsAreFaultlessOrFaulty }
    ensures never_both { FaultlessDualsHaveNoFault }
{}

/// Head over top is a value exactly where their quotient in lowest terms is.
pub fn heads_are_quotients()
    ensures head { HeadsAreQuotients }
{}

/// Valid answers are right.
pub fn valid_answers_are_right()
    ensures right { ValidAnswersAreRight }
{}

/// An answer is valid where it has its parts and each of its claims is valid, and then it is
/// refused for no fault. Where no weight is below 0 it is valid or refused.
pub fn valid_claims_have_no_fault()
    ensures claims { ValidAnswersHaveValidClaims }
    ensures either { AnswersAreValidOrRefused }
    ensures faultless { ValidAnswersAreNotRefused }
{}
