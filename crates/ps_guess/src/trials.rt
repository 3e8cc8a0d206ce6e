//! What guesses are tried over, and the search for a world that a guessed dual overlooks.
ghost use Rattle.std.specs.Prelude.{◌≡◌, ◌<◌, ◌≤◌, length, IfOk, IfSome};
ghost use Rattle.ps_clause.specs.Forms.{IsWithin};
ghost use Rattle.ps_log.specs.declared.limits.TheConstants.{MOST_CONFLICTS};
ghost use Rattle.ps_problem.specs.Problems.{AreParts, bounds_in};
ghost use Rattle.ps_claims.specs.Goals.{goal_of};
ghost use Rattle.ps_claims.specs.Certificates.{HasQuery, IsSmallDual};
ghost use Rattle.ps_claims.specs.Printed.{IsPrintedDual};
ghost use Rattle.ps_runs.specs.Subjects.{IsAsked, given_in, both_in};
ghost use Rattle.ps_guess.specs.Trials.{FindsAgainst, IsAssigned, IsTrialOf, combined};

use crate::searching::{Searched, seek};
use crate::trial::Trial;
use ps_answer::Dual;
use ps_claims::{ClaimKind, Reason, combination};
use ps_clause::{ClauseForm, clauses_of, world_of};
use ps_formula::World;
use ps_io::NoMemory;
use ps_pb::{Assignment, Constraint, Steps, from_weights};
use ps_problem::{Problem, Query};
use ps_sat::Outcome;
use std::alloc::Global;
use std::marker::Model;

/// What guesses are tried over: a problem with the clause form of its nodes, and how many clauses a
/// search may learn. It serves any number of trials.
#[derive(Drop)]
pub struct Trials<'p> {
    problem: &'p Problem,
    form: ClauseForm,
    conflicts: u64,
}

impl<'p> Model for Trials<'p> {
    ghost use Rattle.std.specs.Prelude.{◌≡◌, ◌≤◌};
    ghost use Rattle.ps_clause.specs.Forms.{form_of};
    ghost use Rattle.ps_log.specs.declared.limits.TheConstants.{MOST_CONFLICTS};
    ghost use Rattle.ps_problem.specs.Problems.{Parts};

    ghost Value = { Parts };

    ghost view = { λ t. t.problem.now };

    ghost invariant = { λ t. (t.form ≡ form_of t.problem.now.nodes)
        × (t.conflicts ≤ MOST_CONFLICTS) };
}

/// The evidence of a query; none without a query, or where nothing is given.
pub(crate) fn given_in(problem: &Problem, kind: ClaimKind, query: Option<Query>) -> Option<u32>
    requires { IsAsked kind problem.now query }
    ensures is { result ≡ given_in query }
    ensures node { IfSome result (λ g. g < length problem.now.nodes) }
{
    match query {
        Some(query) => query.given,
        None => None,
    }
}

// The node of a query with its evidence, and 0 without a query.
fn both_in(problem: &Problem, kind: ClaimKind, query: Option<Query>) -> u32
    requires { IsAsked kind problem.now query }
    ensures is { result ≡ both_in query }
    ensures node { HasQuery kind → result < length problem.now.nodes }
{
    match query {
        Some(query) => query.both,
        None => 0,
    }
}

impl<'p> Trials<'p> {
    /// For the guesses about a problem; a search learns at most so many clauses.
    pub fn new(alloc: Global, problem: &'p Problem, conflicts: u64) -> Result<Trials<'p>, NoMemory>
        requires conflicts { conflicts ≤ MOST_CONFLICTS }
        ensures problem { IfOk result (λ trials. trials ≡ problem.now) }
    {
        Ok(Trials {
            problem,
            form: clauses_of(alloc, problem.formulas())?,
            conflicts,
        })
    }

    /// The problem.
    pub fn problem(&self) -> &'p Problem
        ensures is { result.now ≡ self.now }
        ensures parts { AreParts self.now }
    {
        // Called for its clauses: the problem is within the limits, and its numbers are in range.
        let _sound = self.problem.rows();
        self.problem
    }

    /// How many clauses a search learns at most, where nothing else is said.
    pub fn conflicts(&self) -> u64
        ensures { result ≤ MOST_CONFLICTS }
    {
        self.conflicts
    }

    // The goal that the combination of a dual is at least 1.
    fn goal(
        &self,
        alloc: Global,
        kind: ClaimKind,
        query: Option<Query>,
        dual: &Dual,
    ) -> Result<Constraint, NoMemory>
        requires asked { IsAsked kind self.now query }
        requires rows { length dual.now.rows ≡ length (bounds_in self.now.sentences) }
        requires small { IsSmallDual dual.now }
        ensures value { IfOk result (λ c. c ≡ goal_of (combined self.now kind query dual.now)) }
        ensures within { IfOk result (IsWithin (length self.now.nodes)) }
    {
        let problem = self.problem();
        let given = given_in(problem, kind, query);
        let both = both_in(problem, kind, query);
        let sum = combination(alloc, problem, kind, given, both, dual)?;
        from_weights(alloc, sum.terms.as_slice(), 1 - sum.base)
    }

    // The world of an assignment.
    fn world(&self, alloc: Global, assignment: &Assignment) -> Result<World, NoMemory>
        ensures length { IfOk result (λ world. length world ≡ length self.now.names) }
        ensures of { IfOk result (IsAssigned self.now assignment.now) }
    {
        let problem = self.problem();
        world_of(alloc, problem.formulas(), problem.atoms(), assignment)
    }

    /// The dual with the steps of a refutation, where its combination is below 1 in each world: one
    /// search, which learns at most so many clauses, looks for a world in which it isn't.
    pub(crate) fn refute(
        &self,
        alloc: Global,
        kind: ClaimKind,
        query: Option<Query>,
        dual: Dual,
        conflicts: u64,
    ) -> Result<Trial<Dual>, NoMemory>
        requires asked { IsAsked kind self.now query }
        requires small { IsSmallDual dual }
        requires few { conflicts ≤ MOST_CONFLICTS }
        ensures shown { IfOk result (IsTrialOf IsPrintedDual) }
        ensures against { IfOk result (FindsAgainst self.now kind query dual) }
    {
        if dual.rows.len() != self.problem().bounds() as usize {
            return Ok(Trial::Wrong(Reason::WrongShape));
        }
        let goal = self.goal(alloc, kind, query, &dual)?;
        let Searched { outcome, steps } = seek(alloc, &self.form, &goal, conflicts)?;
        match outcome {
            Outcome::Refuted { last: _ } => Ok(Trial::Shown(with_steps(dual, steps))),
            Outcome::Spent { learned: _ } => Ok(Trial::Spent),
            Outcome::Found(assignment) => Ok(Trial::Found(self.world(alloc, &assignment)?)),
        }
    }
}

/// A dual with the steps of a refutation.
fn with_steps(dual: Dual, steps: Steps) -> Dual
    ensures { result ≡ record dual { steps = steps } }
{
    Dual {
        top: dual.top,
        head: dual.head,
        rows: dual.rows,
        steps,
    }
}
