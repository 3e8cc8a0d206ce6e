//! Guesses that nothing is allowed.
ghost use Rattle.std.specs.Prelude.{◌≤◌, IfOk, IfSome};
ghost use Rattle.ps_log.specs.declared.limits.TheConstants.{MOST_CONFLICTS};
ghost use Rattle.ps_problem.specs.Problems.{HasNodes};
ghost use Rattle.ps_claims.specs.declared.claim_kind.ClaimKind.TheVariants.{Nothing};
ghost use Rattle.ps_guess.specs.Trials.{FindsAgainst, IsFoundDual, IsTrialOf};

use crate::limits::{has_steps, is_small_dual};
use crate::trial::Trial;
use crate::trials::{Trials, given_in};
use ps_answer::Dual;
use ps_claims::{ClaimKind, Reason};
use ps_io::NoMemory;
use ps_problem::Query;
use ps_valid::check_dual;
use std::alloc::Global;

impl<'p> Trials<'p> {
    /// Whether the guess, a dual with steps, or one whose steps are sought here by a search that learns
    /// at most so many clauses, shows that no distribution that meets each bound gives the query's evidence positive
    /// probability; without a query, that there is no such distribution.
    pub fn nothing(
        &self,
        alloc: Global,
        query: Option<Query>,
        dual: Dual,
        conflicts: u64,
    ) -> Result<Trial<Dual>, NoMemory>
        requires few { conflicts ≤ MOST_CONFLICTS }
        requires query { IfSome query (λ q. HasNodes self.now.nodes q.formula q.given q.both) }
        ensures shown { IfOk result (IsTrialOf (IsFoundDual self.now query)) }
        ensures against { IfOk result (FindsAgainst self.now Nothing query dual) }
    {
        if !is_small_dual(&dual) {
            return Ok(Trial::Wrong(Reason::HeadWrong));
        }
        let problem = self.problem();
        let given = given_in(problem, ClaimKind::Nothing, query);
        if has_steps(&dual, self.conflicts()) {
            return match check_dual(alloc, problem, given, &dual)? {
                None => Ok(Trial::Shown(dual)),
                Some(against) => Ok(Trial::Wrong(against)),
            };
        }
        match check_dual(alloc, problem, given, &dual)? {
            None | Some(Reason::NotRefuted) => {}
            Some(reason) => return Ok(Trial::Wrong(reason)),
        }
        match self.refute(alloc, ClaimKind::Nothing, query, dual, conflicts)? {
            Trial::Shown(shown) => match check_dual(alloc, problem, given, &shown)? {
                Some(reason) => Ok(Trial::Wrong(reason)),
                None => Ok(Trial::Shown(shown)),
            },
            Trial::Found(world) => Ok(Trial::Found(world)),
            Trial::Wrong(reason) => Ok(Trial::Wrong(reason)),
            Trial::Spent => Ok(Trial::Spent),
        }
    }
}
