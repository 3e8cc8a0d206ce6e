//! The pricing of a problem's duals.
ghost use Rattle.std.specs.Prelude.{◌≡◌, ◌≤◌, length, IfOk};
ghost use Rattle.ps_problem.specs.Problems.{AreParts};
ghost use Rattle.ps_problem.specs.Rows.{rows_in};
ghost use Rattle.ps_log.specs.declared.limits.TheConstants.{MOST_CONFLICTS};
ghost use Rattle.ps_maxsat.specs.Limits.{IsNarrow, IsSoftWithin};
ghost use Rattle.ps_runs.specs.Kept.{IsChoice};
ghost use Rattle.ps_runs.specs.Subjects.{IsAsked, atoms_of, given_in, both_in};
ghost use Rattle.ps_pricing.specs.Pricings.{IsAssigned, IsDualFor, IsPricing};
ghost use Rattle.ps_pricing.specs.Pricings.{IsPrintedPricing, IsWcnf, asking, priced_over};

use crate::alone::first_world;
use crate::pricing::Pricing;
use crate::sought::{Sought, seek};
use ps_answer::Dual;
use ps_claims::{ClaimKind, Combination, combination_of};
use ps_clause::{ClauseForm, clauses_of, world_of};
use ps_formula::World;
use ps_io::{List, NoMemory};
use ps_log::is_goal_within;
use ps_maxsat::{Priced, Wcnf};
use ps_pb::{Assignment, Steps, from_weights};
use ps_problem::{Problem, Query, Row};
use ps_runs::kept_rows;
use std::alloc::Global;
use std::marker::Model;

/// What duals are priced over: which sentences of a problem are kept, their rows, the clause form
/// of the problem's nodes, and a query, or none; how many clauses a search may learn, and with which
/// values it begins.
#[derive(Drop)]
pub struct Pricer<'p> {
    problem: &'p Problem,
    kept: List<bool>,
    rows: List<Row>,
    form: ClauseForm,
    query: Option<Query>,
    conflicts: u64,
    first: Assignment,
}

impl<'p> Model for Pricer<'p> {
    ghost use Rattle.std.specs.Prelude.{◌≡◌, ◌≤◌};
    ghost use Rattle.ps_problem.specs.Problems.{AreParts};
    ghost use Rattle.ps_problem.specs.Rows.{rows_in};
    ghost use Rattle.ps_clause.specs.Forms.{form_of};
    ghost use Rattle.ps_runs.specs.Kept.{IsChoice, kept_parts};
    ghost use Rattle.ps_log.specs.declared.limits.TheConstants.{MOST_CONFLICTS};
    ghost use Rattle.ps_pricing.specs.Pricings.{PricingSubject};

    ghost Value = { PricingSubject };

    ghost view = { λ p. record {
      subject = record { parts = kept_parts p.kept p.problem.now; query = p.query };
      conflicts = p.conflicts;
    } };

    ghost invariant = { λ p.
        (p.form ≡ form_of p.problem.now.nodes) × (p.conflicts ≤ MOST_CONFLICTS)
        × IsChoice p.kept p.problem.now
        × (p.rows ≡ rows_in (kept_parts p.kept p.problem.now).sentences)
        × AreParts (kept_parts p.kept p.problem.now) };
}

impl<'p> Pricer<'p> {
    /// For the kept sentences of a problem, by a truth value for each, and a query, or none.
    pub fn new(
        alloc: Global,
        problem: &'p Problem,
        kept: &[bool],
        query: Option<Query>,
        conflicts: u64,
    ) -> Result<Pricer<'p>, NoMemory>
        requires kept { IsChoice kept.now problem.now }
        requires conflicts { conflicts ≤ MOST_CONFLICTS }
        ensures value { IfOk result (λ p. p ≡ priced_over problem.now kept.now query conflicts) }
    {
        // Called for its clauses: the problem is within the limits, and its numbers are in range.
        let _sound = problem.rows();
        let rows = kept_rows(alloc, problem, kept)?;
        let form = clauses_of(alloc, problem.formulas())?;
        Ok(Pricer {
            first: first_world(alloc, &form, rows.as_slice(), conflicts)?,
            problem,
            kept: List::from_vec(kept.to_vec(alloc)?),
            rows,
            form,
            query,
            conflicts,
        })
    }

    /// The same with this query.
    pub fn asking(&self, alloc: Global, query: Query) -> Result<Pricer<'p>, NoMemory>
        ensures value { IfOk result (λ pricer. pricer ≡ asking query self.now) }
    {
        Ok(Pricer {
            problem: self.problem,
            kept: List::from_vec(self.kept.as_slice().to_vec(alloc)?),
            rows: kept_rows(alloc, self.problem, self.kept.as_slice())?,
            form: self.form.copy(alloc)?,
            query: Some(query),
            conflicts: self.conflicts,
            first: self.first.copy(alloc)?,
        })
    }

    /// The rows of the bounds of the kept sentences.
    pub fn rows(&self) -> &[Row]
        ensures rows { result.now ≡ rows_in self.now.subject.parts.sentences }
        ensures parts { AreParts self.now.subject.parts }
    {
        self.rows.as_slice()
    }

    /// The node of the query's evidence; none without a query, or where nothing is given.
    pub fn evidence(&self) -> Option<u32>
        ensures { result ≡ given_in self.now.subject.query }
    {
        match self.query {
            Some(query) => query.given,
            None => None,
        }
    }

    /// The node of the query with its evidence, and 0 without a query.
    pub fn both(&self) -> u32
        ensures value { result ≡ both_in self.now.subject.query }
        ensures parts { AreParts self.now.subject.parts }
    {
        match self.query {
            Some(query) => query.both,
            None => 0,
        }
    }

    /// The clauses, with the combination of a dual as what is to be greatest.
    fn wcnf(&self, alloc: Global, kind: ClaimKind, dual: &Dual) -> Result<Wcnf, NoMemory>
        requires asked { IsAsked kind self.now.subject.parts self.now.subject.query }
        requires dual { IsDualFor self.now.subject.parts dual.now }
        ensures value { IfOk result (IsWcnf kind self.now.subject dual.now) }
        ensures narrow { IfOk result IsNarrow }
        ensures within { IfOk result IsSoftWithin }
    {
        let rows = self.rows();
        let (given, both) = (self.evidence(), self.both());
        let Combination { terms, base } = combination_of(alloc, rows, kind, given, both, dual)?;
        Ok(Wcnf {
            hard: self.form.copy(alloc)?,
            soft: terms,
            base,
        })
    }

    /// The world of an assignment.
    fn world(&self, alloc: Global, assignment: &Assignment) -> Result<World, NoMemory>
        ensures length { IfOk result (λ w. length w ≡ atoms_of self.now.subject) }
        ensures of { IfOk result (IsAssigned self.now.subject assignment.now) }
    {
        world_of(
            alloc,
            self.problem.formulas(),
            self.problem.atoms(),
            assignment,
        )
    }

    /// Looks for a world of greatest combination of a dual, if one is at least 1. The dual has a
    /// multiplier for each bound of the kept sentences, and its numbers are at most 2^90 in size.
    pub fn price(&self, alloc: Global, kind: ClaimKind, dual: Dual) -> Result<Pricing, NoMemory>
        requires asked { IsAsked kind self.now.subject.parts self.now.subject.query }
        requires dual { IsDualFor self.now.subject.parts dual }
        ensures pricing { IfOk result (IsPricing kind self.now dual) }
        ensures printed { IfOk result IsPrintedPricing }
    {
        // Called for its clauses: the problem of the kept sentences is within the limits, and its
        // numbers are in range.
        let _sound = self.rows();
        let wcnf = self.wcnf(alloc, kind, &dual)?;
        let Sought { priced, steps } = seek(alloc, &wcnf, &self.first, self.conflicts)?;
        match priced {
            Priced::NoneAbove { last: _ } => Ok(Pricing::Refuted(with_steps(dual, steps))),
            Priced::Spent { learned: _ } => {
                let goal = from_weights(alloc, wcnf.soft.as_slice(), 1 - wcnf.base)?;
                // Called for its clauses: each constraint is within the limits of a goal.
                let _within = is_goal_within(&goal);
                Ok(Pricing::Spent { goal, steps })
            }
            Priced::Best { assignment, .. } => {
                Ok(Pricing::Found(self.world(alloc, &assignment)?))
            }
            Priced::Cut { assignment, .. } => {
                Ok(Pricing::Found(self.world(alloc, &assignment)?))
            }
        }
    }
}

/// A dual with the steps of a refutation.
fn with_steps(dual: Dual, steps: Steps) -> Dual
    ensures { result ≡ record dual { steps = steps } }
{
    Dual {
        top: dual.top,
        head: dual.head,
        rows: dual.rows,
        steps,
    }
}
