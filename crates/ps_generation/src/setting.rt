//! What a run is over.
ghost use Rattle.std.specs.Prelude.{◌≡◌, [], length, IfOk, IfErr, IfSome};
ghost use Rattle.ps_problem.specs.Problems.{HasNodes, AreParts};
ghost use Rattle.ps_problem.specs.Rows.{rows_in};
ghost use Rattle.ps_table.specs.Tableau.{rows_of as table_rows};
ghost use Rattle.ps_table.specs.Pricing.{HasCosts};
ghost use Rattle.ps_table.specs.Places.{IsNarrow, IsRefusedAt};
ghost use Rattle.ps_generation.specs.Multiples.{DualPlaces};
ghost use Rattle.ps_runs.specs.Rows.{rows_of};
ghost use Rattle.ps_runs.specs.Kept.{IsChoice};
ghost use Rattle.ps_runs.specs.Subjects.{IsAsked, atoms_of, setting_of, frame_of};
ghost use Rattle.ps_runs.specs.Runs.{IsPool};
ghost use Rattle.ps_runs.specs.Tables.{IsRunTable, costs_for};
ghost use Rattle.ps_pricing.specs.Pricings.{IsDualFor, IsPricing, IsPrintedPricing};
ghost use Rattle.ps_claims.specs.Printed.{IsPrintedDual};
ghost use Rattle.ps_generation.specs.Phases.{AreLimits, IsNewState, IsSpread, asking, limited};
ghost use Rattle.ps_generation.specs.Rounds.{IsColumnOf, IsDualOver, pricing_subject_of};

use crate::column::Column;
use crate::settling::phase_of;
use crate::spreading::{flags_of, spread, with_rows};
use crate::table_dual::dual_of;
use ps_answer::Dual;
use ps_claims::ClaimKind;
use ps_formula::{World, eval};
use ps_io::{List, NoMemory};
use ps_pricing::{Pricer, Pricing};
use ps_problem::{Problem, Query};
use ps_runs::{Limits, State, column_of, costs_for, homes_of, world_cost};
use ps_table::{Costs, Pool, Table, TableError};
use std::alloc::Global;
use std::marker::Model;

/// What a run is over: a problem, which of its bounds are kept, the pricing of duals over these and
/// the query, and the limits.
#[derive(Drop)]
pub struct Setting<'p> {
    problem: &'p Problem,
    flags: List<bool>,
    pricer: Pricer<'p>,
    limits: Limits,
}

impl<'p> Model for Setting<'p> {
    ghost use Rattle.std.specs.Prelude.{◌≡◌};
    ghost use Rattle.ps_runs.specs.Subjects.{IsAsked};
    ghost use Rattle.ps_claims.specs.declared.claim_kind.ClaimKind.TheVariants.{Nothing};
    ghost use Rattle.ps_generation.specs.Phases.{LimitedSubject, AreLimits};
    ghost use Rattle.ps_generation.specs.Spreading.{IsKeptOf};

    ghost Value = { LimitedSubject };

    ghost view = { λ s. record {
      whole = s.problem.now;
      flags = s.flags;
      subject = s.pricer.subject;
      limits = s.limits;
    } };

    ghost invariant = { λ s.
        IsKeptOf s.problem.now s.flags s.pricer.subject.parts
        × (s.pricer.conflicts ≡ s.limits.conflicts)
        × AreLimits s.limits × IsAsked Nothing s.pricer.subject.parts s.pricer.subject.query };
}

impl<'p> Setting<'p> {
    /// For the kept sentences of a problem, by a truth value for each, and a query, or none.
    pub fn new(
        alloc: Global,
        problem: &'p Problem,
        kept: &[bool],
        query: Option<Query>,
        limits: Limits,
    ) -> Result<Setting<'p>, NoMemory>
        requires kept { IsChoice kept.now problem.now }
        requires query { IfSome query
            (λ q. HasNodes problem.now.nodes q.formula q.given q.both) }
        requires limits { AreLimits limits }
        ensures value { IfOk result (λ s. s ≡ limited problem.now kept.now query limits) }
    {
        Ok(Setting {
            problem,
            flags: flags_of(alloc, problem.sentences().as_slice(), kept)?,
            pricer: Pricer::new(alloc, problem, kept, query, limits.conflicts)?,
            limits,
        })
    }

    /// The same with this query.
    pub fn asking(&self, alloc: Global, query: Query) -> Result<Setting<'p>, NoMemory>
        requires query { HasNodes self.now.subject.parts.nodes
            query.formula query.given query.both }
        ensures value { IfOk result (λ setting. setting ≡ asking query self.now) }
    {
        Ok(Setting {
            problem: self.problem,
            flags: List::from_vec(self.flags.as_slice().to_vec(alloc)?),
            pricer: self.pricer.asking(alloc, query)?,
            limits: self.limits,
        })
    }

    /// The limits.
    pub(crate) fn limits(&self) -> Limits
        ensures value { result ≡ self.now.limits }
    {
        self.limits
    }

    /// A run at its start.
    pub fn start(&self, alloc: Global) -> Result<State, NoMemory>
        ensures { IfOk result (IsNewState self.now) }
    {
        let homes = homes_of(alloc, self.pricer.rows())?;
        let table = Table::new(alloc, &homes)?;
        // Called for its clauses: the table is in the form in which tables are kept.
        let _sound = table.rows();
        Ok(State {
            table,
            pool: Pool::new(alloc),
            trace: List::new(alloc),
            left: self.limits.pivots,
        })
    }

    /// The costs of a phase in a state.
    pub fn costs(&self, alloc: Global, kind: ClaimKind, state: &State) -> Result<Costs, NoMemory>
        requires asked { IsAsked kind self.now.subject.parts self.now.subject.query }
        requires table { IsRunTable (frame_of self.now.subject) state.now.pool state.now.table }
        requires pool { IsPool (atoms_of self.now.subject) state.now.pool }
        ensures parts { AreParts self.now.subject.parts }
        ensures costs { IfOk result
            (λ c. c ≡ costs_for kind (setting_of self.now.subject) state.now.pool) }
    {
        costs_for(
            alloc,
            phase_of(kind),
            self.problem.formulas(),
            self.pricer.both(),
            &state.table,
            &state.pool,
        )
    }

    /// The column of a world, and its cost.
    pub(crate) fn column(
        &self,
        alloc: Global,
        kind: ClaimKind,
        world: &World,
    ) -> Result<Column, NoMemory>
        requires asked { IsAsked kind self.now.subject.parts self.now.subject.query }
        requires sized { length world.now ≡ atoms_of self.now.subject }
        ensures { IfOk result (IsColumnOf kind self.now.subject world.now) }
    {
        let rows = self.pricer.rows();
        let values = eval(alloc, self.problem.formulas(), world)?;
        Ok(Column {
            entries: column_of(alloc, &values, rows, self.pricer.evidence())?,
            cost: world_cost(phase_of(kind), self.pricer.both(), &values),
        })
    }

    /// The dual of a table, without steps.
    pub(crate) fn dual(
        &self,
        alloc: Global,
        kind: ClaimKind,
        table: &Table,
        costs: &Costs,
    ) -> Result<Dual, TableError>
        requires costs { HasCosts costs.now table.now }
        requires rows { table_rows table.now ≡ rows_of (setting_of self.now.subject) }
        ensures numbers { IfOk result (IsDualOver kind self.now.subject table.now costs.now) }
        ensures fit { IfOk result (IsDualFor self.now.subject.parts) }
        ensures steps { IfOk result (λ d. d.steps ≡ []) }
        ensures narrow { IfOk result (λ _. IsNarrow (DualPlaces table.now costs.now)) }
        ensures refused { IfErr result (IsRefusedAt (DualPlaces table.now costs.now)) }
    {
        dual_of(alloc, self.pricer.rows(), kind, table, costs)
    }

    /// Looks for a world of greatest combination of a dual, if one is at least 1.
    pub(crate) fn price(
        &self,
        alloc: Global,
        kind: ClaimKind,
        dual: Dual,
    ) -> Result<Pricing, NoMemory>
        requires asked { IsAsked kind self.now.subject.parts self.now.subject.query }
        requires dual { IsDualFor self.now.subject.parts dual }
        ensures parts { AreParts self.now.subject.parts }
        ensures pricing { IfOk result (IsPricing kind (pricing_subject_of self.now) dual) }
        ensures printed { IfOk result IsPrintedPricing }
    {
        // Called for its clauses: the problem of the kept sentences is within the limits, and its
        // numbers are in range.
        let _sound = self.pricer.rows();
        self.pricer.price(alloc, kind, dual)
    }

    /// A dual of the kept bounds as one of the whole problem, with multiplier 0 at each other.
    pub fn spread(&self, alloc: Global, dual: Dual) -> Result<Dual, NoMemory>
        requires rows { length dual.rows ≡ length (rows_in self.now.subject.parts.sentences) }
        ensures spread { IfOk result (IsSpread self.now dual) }
        ensures printed { IsPrintedDual dual → IfOk result IsPrintedDual }
    {
        let rows = spread(alloc, self.flags.as_slice(), dual.rows.as_slice())?;
        Ok(with_rows(dual, rows))
    }
}
