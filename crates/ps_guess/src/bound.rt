//! Guesses of the bounds of queries.
ghost use Rattle.std.specs.Prelude.{◌≤◌, Some, IfOk, IfSome};
ghost use Rattle.ps_log.specs.declared.limits.TheConstants.{MOST_CONFLICTS};
ghost use Rattle.ps_problem.specs.Problems.{HasNodes};
ghost use Rattle.ps_claims.specs.Printed.{IsPrintedDual};
ghost use Rattle.ps_valid.specs.Limits.{IsSmallModel};
ghost use Rattle.ps_guess.specs.Trials.{FindsAgainst, IsFoundSide, IsTrialOf};

use crate::limits::{has_steps, is_small_dual, is_small_model};
use crate::trial::Trial;
use crate::trials::Trials;
use ps_answer::{Dual, Model, SideAnswer};
use ps_claims::{ClaimKind, Reason};
use ps_frac::Fraction;
use ps_io::NoMemory;
use ps_problem::{Problem, Query};
use ps_valid::check_bound;
use std::alloc::Global;

// The bound that the model and the dual, which has steps, show.
fn shown_bound(
    alloc: Global,
    problem: &Problem,
    kind: ClaimKind,
    query: Query,
    value: Fraction,
    model: Model,
    dual: Dual,
) -> Result<Option<SideAnswer>, NoMemory>
    requires query { HasNodes problem.now.nodes query.formula query.given query.both }
    requires model { IsSmallModel model }
    requires printed { IsPrintedDual dual }
    ensures { IfOk result (λ o. IfSome o (IsFoundSide problem.now kind query)) }
{
    match check_bound(alloc, problem, kind, &query, &value, &model, &dual)? {
        Some(_) => Ok(None),
        None => Ok(Some(SideAnswer::Bound { value, model, dual })),
    }
}

impl<'p> Trials<'p> {
    /// Whether the guess shows the bound of the query on this side that is the dual's head over its
    /// top: a distribution that reaches it, and a dual, with a multiplier for each bound of the
    /// problem. Where the dual has steps, the judge of claims looks at all. Else they are sought here:
    /// before the search, which learns at most so many clauses, the judge looks at all but the steps,
    /// and after it at all.
    pub fn bound(
        &self,
        alloc: Global,
        kind: ClaimKind,
        query: Query,
        model: Model,
        dual: Dual,
        conflicts: u64,
    ) -> Result<Trial<SideAnswer>, NoMemory>
        requires query { HasNodes self.now.nodes query.formula query.given query.both }
        requires few { conflicts ≤ MOST_CONFLICTS }
        ensures shown { IfOk result (IsTrialOf (IsFoundSide self.now kind query)) }
        ensures against { IfOk result (FindsAgainst self.now kind (Some query) dual) }
    {
        if !is_small_model(&model) {
            return Ok(Trial::Wrong(Reason::TotalWrong));
        }
        if !is_small_dual(&dual) || dual.top < 1 {
            return Ok(Trial::Wrong(Reason::HeadWrong));
        }
        let problem = self.problem();
        let value = Fraction::new(dual.head, dual.top);
        if has_steps(&dual, self.conflicts()) {
            return match shown_bound(alloc, problem, kind, query, value, model, dual)? {
                None => Ok(Trial::Wrong(Reason::NotRefuted)),
                Some(side) => Ok(Trial::Shown(side)),
            };
        }
        match check_bound(alloc, problem, kind, &query, &value, &model, &dual)? {
            None | Some(Reason::NotRefuted) => {}
            Some(reason) => return Ok(Trial::Wrong(reason)),
        }
        match self.refute(alloc, kind, Some(query), dual, conflicts)? {
            Trial::Shown(dual) => match shown_bound(
                alloc, problem, kind, query, value, model, dual,
            )? {
                None => Ok(Trial::Wrong(Reason::NotRefuted)),
                Some(side) => Ok(Trial::Shown(side)),
            },
            Trial::Found(world) => Ok(Trial::Found(world)),
            Trial::Wrong(reason) => Ok(Trial::Wrong(reason)),
            Trial::Spent => Ok(Trial::Spent),
        }
    }
}
