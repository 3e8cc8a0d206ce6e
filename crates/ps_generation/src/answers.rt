//! What the phases of a run answer.
ghost use Rattle.std.specs.Prelude.{◌≢◌, ◌≤ℤ◌, IfOk, MatchResult, pos, false};
ghost use Rattle.ps_simplex.specs.Rule.{IsFeasible};
ghost use Rattle.ps_bland.specs.Ready.{HasNoNegativeValue};
ghost use Rattle.ps_bland.specs.Rules.{simplex_of};
ghost use Rattle.ps_claims.specs.declared.claim_kind.ClaimKind.TheVariants.{Nothing};
ghost use Rattle.ps_runs.specs.Subjects.{IsAsked};
ghost use Rattle.ps_claims.specs.Printed.{ArePrintedOperands, IsPrintedDual, IsPrintedModel};
ghost use Rattle.ps_claims.specs.Printed.{IsPrintedSide};
ghost use Rattle.ps_generation.specs.Models.{AreApart};
ghost use Rattle.ps_generation.specs.Counts.{MakesFewPivots};
ghost use Rattle.ps_generation.specs.Phases.{AreLimits, HasRoom, IsLeft};
ghost use Rattle.ps_generation.specs.Runs.{IsAtStart, IsPrintedFirst};
ghost use Rattle.ps_generation.specs.States.{IsBoundOf, IsModelOrWide, HasRunTable, run_of};
ghost use Rattle.ps_generation.specs.States.{AnswersPhaseOne, AnswersSide};

use crate::end::End;
use crate::first::First;
use crate::modelled::model_of;
use crate::one_phase::phase;
use crate::setting::Setting;
use ps_answer::{Cause, Dual, Model, SideAnswer};
use ps_claims::ClaimKind;
use ps_frac::Fraction;
use ps_io::NoMemory;
use ps_runs::State;
use ps_table::{TableError, WideAt};
use std::alloc::Global;

/// The operands that were refused can be printed.
fn can_be_printed(at: &WideAt)
    ensures { ArePrintedOperands at.now }
{
    at.left.fits();
    at.right.fits();
}

/// The distribution of a table, or the place at which a number of it is too wide.
fn found_model(alloc: Global, state: &State) -> Result<Result<Model, WideAt>, NoMemory>
    requires values { HasNoNegativeValue state.now.table }
    requires apart { AreApart state.now.table }
    ensures found { IfOk result (IsModelOrWide state.now) }
    ensures printed { IfOk result (λ r. MatchResult r IsPrintedModel ArePrintedOperands) }
{
    match model_of(alloc, &state.table, &state.pool) {
        Ok(model) => Ok(Ok(model)),
        Err(TableError::Wide(at)) => {
            can_be_printed(&at);
            Ok(Err(at))
        }
        Err(TableError::NoMemory) => Err(NoMemory),
    }
}

/// The answer of phase one.
pub(crate) fn first(
    alloc: Global,
    setting: &Setting<'_>,
    state: &mut State,
) -> Result<First, NoMemory>
    requires asked { IsAsked Nothing setting.now.subject.parts setting.now.subject.query }
    requires limits { AreLimits setting.now.limits }
    requires there { HasRunTable setting.now.subject state.old }
    requires start { IsAtStart (run_of setting.now state.old false) }
    ensures answer { IfOk result (AnswersPhaseOne setting.now state.old state.new) }
    ensures there { IfOk result (λ _. HasRunTable setting.now.subject state.new) }
    ensures pivots { IfOk result
        (λ _. MakesFewPivots setting.now.subject state.old state.new) }
    ensures printed { IfOk result IsPrintedFirst }
{
    match phase(alloc, setting, ClaimKind::Nothing, state)? {
        End::Feasible => match found_model(alloc, state)? {
            Ok(model) => Ok(First::Reached(model)),
            Err(at) => Ok(First::Open(Cause::Wide { at })),
        },
        End::NoneAbove(dual) => Ok(First::Nothing(setting.spread(alloc, dual)?)),
        End::Open(cause) => Ok(First::Open(cause)),
    }
}

/// The value that a side's dual shows, with the distribution that reaches it.
fn bound(alloc: Global, state: &State, dual: Dual) -> Result<SideAnswer, NoMemory>
    requires values { HasNoNegativeValue state.now.table }
    requires apart { AreApart state.now.table }
    requires top { pos 1 ≤ℤ dual.top }
    requires dual { IsPrintedDual dual }
    ensures bound { IfOk result (IsBoundOf state.now dual) }
    ensures printed { IfOk result IsPrintedSide }
{
    match found_model(alloc, state)? {
        Ok(model) => Ok(SideAnswer::Bound {
            value: Fraction::new(dual.head, dual.top),
            model,
            dual,
        }),
        Err(at) => Ok(SideAnswer::Open(Cause::Wide { at })),
    }
}

/// The answer of a side.
pub(crate) fn side(
    alloc: Global,
    setting: &Setting<'_>,
    kind: ClaimKind,
    state: &mut State,
) -> Result<SideAnswer, NoMemory>
    requires side { kind ≢ Nothing }
    requires asked { IsAsked kind setting.now.subject.parts setting.now.subject.query }
    requires there { HasRunTable setting.now.subject state.old }
    requires feasible { IsFeasible (simplex_of state.old.table) }
    requires room { HasRoom state.old }
    ensures answer { IfOk result (AnswersSide kind setting.now state.old state.new) }
    ensures left { IfOk result (λ _. IsLeft kind setting.now.subject state.old state.new) }
    ensures pivots { IfOk result
        (λ _. MakesFewPivots setting.now.subject state.old state.new) }
    ensures printed { IfOk result IsPrintedSide }
{
    match phase(alloc, setting, kind, state)? {
        End::Feasible => unreachable!(),
        End::NoneAbove(dual) => bound(alloc, state, setting.spread(alloc, dual)?),
        End::Open(cause) => Ok(SideAnswer::Open(cause)),
    }
}
