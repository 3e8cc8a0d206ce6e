//! A phase to its end, round by round.
ghost use Rattle.std.specs.Prelude.{IfOk, IfSome};
ghost use Rattle.ps_runs.specs.Subjects.{IsAsked};
ghost use Rattle.ps_generation.specs.Phases.{HasRoom, IsEnd, IsInPhase, IsLeft, IsPrintedEnd};
ghost use Rattle.ps_generation.specs.Phases.{LeavesRoomButForOne};
ghost use Rattle.ps_generation.specs.Counts.{MakesFewPivots, StaysBelowBound};
ghost use Rattle.ps_generation.specs.Rounds.{IsAtRest, IsRound};

use crate::end::End;
use crate::pricing::price_table;
use crate::setting::Setting;
use crate::settling::settle_phase;
use ps_claims::ClaimKind;
use ps_io::NoMemory;
use ps_runs::State;
use ps_table::Costs;
use std::alloc::Global;

/// A round of a phase: at rest a pricing, whose world enters, and pivots until the table rests
/// again.
fn round(
    alloc: Global,
    setting: &Setting<'_>,
    kind: ClaimKind,
    state: &mut State,
    costs: &mut Costs,
) -> Result<Option<End>, NoMemory>
    requires asked { IsAsked kind setting.now.subject.parts setting.now.subject.query }
    requires phase { IsInPhase kind setting.now.subject costs.old state.old }
    requires rests { IsAtRest kind setting.now.subject state.old }
    requires room { HasRoom state.old }
    ensures phase { IfOk result
        (λ _. IsInPhase kind setting.now.subject costs.new state.new) }
    ensures room { IfOk result (λ _. LeavesRoomButForOne state.old state.new) }
    ensures end { IfOk result (IsRound kind setting.now state.old state.new) }
    ensures pivots { IfOk result
        (λ _. StaysBelowBound setting.now.subject state.old state.new) }
    ensures printed { IfOk result (λ end. IfSome end IsPrintedEnd) }
{
    if let Some(end) = price_table(alloc, setting, kind, state, costs)? {
        return Ok(Some(end));
    }
    settle_phase(setting, kind, state, costs)
}

/// A phase to its end: pivots by Bland's rule, and at rest a pricing, whose world enters (L. R.
/// Ford, D. R. Fulkerson, 1958; P. C. Gilmore, R. E. Gomory, 1961). Phase one is over where each
/// basic artificial has value 0; any phase ends where no world's column improves. After want of
/// memory nothing is said of the state.
///
/// With `r` rows, and `m` worlds in the pool at the end, a phase makes fewer pivots than there are
/// ways to choose `r + 1` things out of `r + m + 1`.
pub fn run_phase(
    alloc: Global,
    setting: &Setting<'_>,
    kind: ClaimKind,
    state: &mut State,
    costs: &mut Costs,
) -> Result<End, NoMemory>
    requires asked { IsAsked kind setting.now.subject.parts setting.now.subject.query }
    requires phase { IsInPhase kind setting.now.subject costs.old state.old }
    requires room { HasRoom state.old }
    ensures end { IfOk result (IsEnd kind setting.now state.old state.new) }
    ensures left { IfOk result (λ _. IsLeft kind setting.now.subject state.old state.new) }
    ensures pivots { IfOk result
        (λ _. MakesFewPivots setting.now.subject state.old state.new) }
    ensures printed { IfOk result IsPrintedEnd }
{
    if let Some(end) = settle_phase(setting, kind, state, costs)? {
        return Ok(end);
    }
    loop {
        if let Some(end) = round(alloc, setting, kind, state, costs)? {
            return Ok(end);
        }
    }
}
