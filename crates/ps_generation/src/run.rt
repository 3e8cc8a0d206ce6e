//! A run.
ghost use Rattle.std.specs.Prelude.{◌≡◌, ◌≢◌, [], None, false, IfOk, IfSome, IsErr, IsTrue, is_err};
ghost use Rattle.ps_problem.specs.Problems.{HasNodes};
ghost use Rattle.ps_claims.specs.declared.claim_kind.ClaimKind.TheVariants.{Lower, Nothing, Upper};
ghost use Rattle.ps_runs.specs.Kept.{IsChoice};
ghost use Rattle.ps_claims.specs.Printed.{IsPrintedSide};
ghost use Rattle.ps_generation.specs.Phases.{AreLimits};
ghost use Rattle.ps_generation.specs.Runs.{IsAtStart, IsPhaseOneAnswer, IsLowered, IsNew};
ghost use Rattle.ps_generation.specs.Runs.{IsFeasibleRun, IsPrintedFirst, IsReached, IsSideAnswerOf};
ghost use Rattle.ps_generation.specs.Runs.{MakesFewPivots, run_asking};
ghost use Rattle.ps_generation.specs.States.{HasGoneOn};

use crate::answers::{first, side};
use crate::first::First;
use crate::setting::Setting;
use ps_answer::SideAnswer;
use ps_claims::ClaimKind;
use ps_io::{List, NoMemory};
use ps_problem::{Problem, Query};
use ps_runs::{Limits, State};
use ps_table::Trace;
use std::alloc::Global;
use std::marker::Model;

/// A run of the simplex method with column generation (D. Bertsimas, J. N. Tsitsiklis,
/// "Introduction to Linear Optimization", 1997) over the bounds of a problem's kept sentences, for
/// the verdict or for a query. Once memory has run out in a phase, each further phase answers
/// `NoMemory`.
#[derive(Drop)]
pub struct Run<'p> {
    alloc: Global,
    setting: Setting<'p>,
    state: State,
    broken: bool,
}

impl<'p> Model for Run<'p> {
    ghost use Rattle.ps_generation.specs.Runs.{RunState};
    ghost use Rattle.ps_generation.specs.States.{run_of, IsRun};

    ghost Value = { RunState };

    ghost view = { λ r. run_of r.setting r.state r.broken };

    ghost invariant = { λ r. IsRun r.setting r.state r.broken };
}

impl<'p> Run<'p> {
    /// A run at its start, over the kept sentences of a problem, by a truth value for each, and for
    /// a query or none. Its duals have a multiplier for each bound of the problem, 0 for each that
    /// isn't kept.
    pub fn new(
        alloc: Global,
        problem: &'p Problem,
        kept: &[bool],
        query: Option<Query>,
        limits: Limits,
    ) -> Result<Run<'p>, NoMemory>
        requires kept { IsChoice kept.now problem.now }
        requires query { IfSome query
            (λ q. HasNodes problem.now.nodes q.formula q.given q.both) }
        requires limits { AreLimits limits }
        ensures { IfOk result (IsNew problem.now kept.now query limits) }
    {
        let setting = Setting::new(alloc, problem, kept, query, limits)?;
        let state = setting.start(alloc)?;
        Ok(Run {
            alloc,
            setting,
            state,
            broken: false,
        })
    }

    /// Whether the kept sentences can be met with evidence of a positive probability; without a
    /// query the evidence is sure. It comes first, once.
    pub fn phase_one(&mut self) -> Result<First, NoMemory>
        requires start { self.old.is_broken ≡ false → IsAtStart self.old }
        ensures answer { IfOk result (IsPhaseOneAnswer self.old self.new) }
        ensures pivots { IfOk result (λ _. MakesFewPivots self.old self.new) }
        ensures printed { IfOk result IsPrintedFirst }
        ensures over { self.new.over ≡ self.old.over }
        ensures broken { IsTrue self.old.is_broken → IsErr result }
        ensures breaks { self.new.is_broken ≡ is_err result }
    {
        if self.broken {
            return Err(NoMemory);
        }
        let reached = first(self.alloc, &self.setting, &mut self.state);
        self.broken = reached.is_err();
        reached
    }

    /// An equal run with a query without evidence in place of none, and no events. Phase one is the
    /// same for both, so a side may follow where the run has reached a distribution.
    pub fn asking(&self, query: Query) -> Result<Run<'p>, NoMemory>
        requires none { self.now.over.subject.query ≡ None }
        requires query { HasNodes self.now.over.subject.parts.nodes
            query.formula query.given query.both }
        requires sure { query.given ≡ None }
        ensures run { IfOk result (λ run. run ≡ run_asking query self.now) }
    {
        Ok(Run {
            alloc: self.alloc,
            setting: self.setting.asking(self.alloc, query)?,
            state: State {
                table: self.state.table.copy(self.alloc)?,
                pool: self.state.pool.copy(self.alloc)?,
                trace: List::new(self.alloc),
                left: self.state.left,
            },
            broken: self.broken,
        })
    }

    /// The answer of a side, unless memory ran out, here or before.
    fn side(&mut self, kind: ClaimKind) -> Result<SideAnswer, NoMemory>
        requires side { kind ≢ Nothing }
        requires query { self.old.over.subject.query ≢ None }
        requires feasible { self.old.is_broken ≡ false → IsFeasibleRun 2 self.old }
        ensures answer { IfOk result (IsSideAnswerOf kind self.old self.new) }
        ensures kept { IfOk result (λ _. HasGoneOn self.old self.new) }
        ensures pivots { IfOk result (λ _. MakesFewPivots self.old self.new) }
        ensures printed { IfOk result IsPrintedSide }
        ensures over { self.new.over ≡ self.old.over }
        ensures broken { IsTrue self.old.is_broken → IsErr result }
        ensures breaks { self.new.is_broken ≡ is_err result }
    {
        if self.broken {
            return Err(NoMemory);
        }
        let answer = side(self.alloc, &self.setting, kind, &mut self.state);
        self.broken = answer.is_err();
        answer
    }

    /// The greatest lower bound of the query.
    pub fn lower(&mut self) -> Result<SideAnswer, NoMemory>
        requires query { self.old.over.subject.query ≢ None }
        requires reached { self.old.is_broken ≡ false → IsReached self.old }
        ensures answer { IfOk result (IsSideAnswerOf Lower self.old self.new) }
        ensures lowered { IfOk result (λ _. IsLowered self.new) }
        ensures pivots { IfOk result (λ _. MakesFewPivots self.old self.new) }
        ensures printed { IfOk result IsPrintedSide }
        ensures over { self.new.over ≡ self.old.over }
        ensures broken { IsTrue self.old.is_broken → IsErr result }
        ensures breaks { self.new.is_broken ≡ is_err result }
    {
        self.side(ClaimKind::Lower)
    }

    /// The least upper bound of the query. Where the lower side is open, it goes on from there.
    pub fn upper(&mut self) -> Result<SideAnswer, NoMemory>
        requires query { self.old.over.subject.query ≢ None }
        requires lowered { self.old.is_broken ≡ false → IsLowered self.old }
        ensures answer { IfOk result (IsSideAnswerOf Upper self.old self.new) }
        ensures pivots { IfOk result (λ _. MakesFewPivots self.old self.new) }
        ensures printed { IfOk result IsPrintedSide }
        ensures over { self.new.over ≡ self.old.over }
        ensures broken { IsTrue self.old.is_broken → IsErr result }
        ensures breaks { self.new.is_broken ≡ is_err result }
    {
        self.side(ClaimKind::Upper)
    }

    /// Hands out the events since it was last called; the run keeps none of them.
    pub fn take_trace(&mut self) -> Trace
        ensures events { result ≡ self.old.trace }
        ensures rest { self.new ≡ record self.old { trace = [] } }
    {
        std::mem::replace(&mut self.state.trace, List::new(self.alloc))
    }
}
