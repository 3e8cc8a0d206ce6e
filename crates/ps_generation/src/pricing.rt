//! The pricing of a table at rest.
ghost use Rattle.std.specs.Prelude.{◌≡◌, ◌≤◌, ◌<◌, length};
ghost use Rattle.std.specs.Prelude.{IfOk, IfSome};
ghost use Rattle.ps_runs.specs.Subjects.{IsAsked};
ghost use Rattle.ps_generation.specs.Phases.{IsInPhase, IsPrintedEnd};
ghost use Rattle.ps_generation.specs.Phases.{LeavesRoomButForOne, most_columns};
ghost use Rattle.ps_generation.specs.Rounds.{HasEntered, IsAtRest, IsEntered, IsPricedIn};

use crate::column::Column;
use crate::end::{End, end_at};
use crate::setting::Setting;
use ps_answer::Cause;
use ps_claims::ClaimKind;
use ps_formula::World;
use ps_io::NoMemory;
use ps_pricing::Pricing;
use ps_runs::State;
use ps_table::{Costs, Event};
use std::alloc::Global;

/// Enters a priced world: its event, its column with its cost, and its place in the pool.
fn enter(
    alloc: Global,
    setting: &Setting<'_>,
    kind: ClaimKind,
    state: &mut State,
    costs: &mut Costs,
    world: World,
) -> Result<(), NoMemory>
    requires asked { IsAsked kind setting.now.subject.parts setting.now.subject.query }
    requires phase { IsInPhase kind setting.now.subject costs.old state.old }
    requires priced { IsPricedIn kind setting.now state.old world }
    requires room { length state.old.pool ≤ most_columns }
    ensures phase { IfOk result
        (λ _. IsInPhase kind setting.now.subject costs.new state.new) }
    ensures room { IfOk result (λ _. LeavesRoomButForOne state.old state.new) }
    ensures entered { IfOk result (λ _. HasEntered kind setting.now state.old state.new) }
    ensures left { IfOk result (λ _. state.new.left ≡ state.old.left) }
{
    let Column { entries, cost } = setting.column(alloc, kind, &world)?;
    state.trace.push(Event::Priced {
        world: world.copy(alloc)?,
    })?;
    state.table.add_world(&entries)?;
    // Called for its clauses: the table is in the form in which tables are kept.
    let _sound = state.table.rows();
    state.pool.add_new(world)?;
    costs.worlds.push(cost)?;
    Ok(())
}

/// The pricing of a table at rest: a world enters, or there is an end.
pub(crate) fn price_table(
    alloc: Global,
    setting: &Setting<'_>,
    kind: ClaimKind,
    state: &mut State,
    costs: &mut Costs,
) -> Result<Option<End>, NoMemory>
    requires asked { IsAsked kind setting.now.subject.parts setting.now.subject.query }
    requires phase { IsInPhase kind setting.now.subject costs.old state.old }
    requires rests { IsAtRest kind setting.now.subject state.old }
    requires room { length state.old.pool ≤ most_columns }
    ensures phase { IfOk result
        (λ _. IsInPhase kind setting.now.subject costs.new state.new) }
    ensures room { IfOk result (λ _. LeavesRoomButForOne state.old state.new) }
    ensures end { IfOk result (IsEntered kind setting.now state.old state.new) }
    ensures left { IfOk result (λ _. state.new.left ≡ state.old.left) }
    ensures pool { IfOk result
        (λ end. IfSome end (λ _. state.new.pool ≡ state.old.pool)) }
    ensures printed { IfOk result (λ end. IfSome end IsPrintedEnd) }
{
    let dual = match setting.dual(alloc, kind, &state.table, costs) {
        Ok(dual) => dual,
        Err(refused) => return Ok(Some(end_at(refused)?)),
    };
    match setting.price(alloc, kind, dual)? {
        Pricing::Found(world) => {
            enter(alloc, setting, kind, state, costs, world)?;
            Ok(None)
        }
        Pricing::Refuted(dual) => Ok(Some(End::NoneAbove(dual))),
        Pricing::Spent { goal, steps } => Ok(Some(End::Open(Cause::Conflicts {
            limit: setting.limits().conflicts,
            goal,
            steps,
        }))),
    }
}
