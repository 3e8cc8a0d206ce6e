//! Pivots between pricings.
ghost use Rattle.std.specs.Prelude.{◌≡◌, ◌+◌, ◌≤◌, length, IfOk, IfSome};
ghost use Rattle.ps_table.specs.Tableau.{IsTableau};
ghost use Rattle.ps_bland.specs.Ready.{IsReady};
ghost use Rattle.ps_bland.specs.Runs.{MadeFewerThanBases};
ghost use Rattle.ps_bland.specs.Ends.{IsEnd as IsSettledEnd};
ghost use Rattle.ps_runs.specs.Rows.{phase_of};
ghost use Rattle.ps_generation.specs.Phases.{IsInPhase, IsPrintedEnd};
ghost use Rattle.ps_generation.specs.Counts.{SettlesInFewerThanBases};
ghost use Rattle.ps_generation.specs.Rounds.{HasPivoted, IsPhaseSettled};

use crate::end::{End, end_at};
use crate::setting::Setting;
use ps_answer::Cause;
use ps_bland::{SettleError, Settled, settle};
use ps_claims::ClaimKind;
use ps_io::NoMemory;
use ps_runs::State;
use ps_simplex::Phase;
use ps_table::Costs;

/// The phase that shows a claim of this kind.
pub(crate) fn phase_of(kind: ClaimKind) -> Phase
    ensures { result ≡ phase_of kind }
{
    match kind {
        ClaimKind::Nothing => Phase::One,
        ClaimKind::Lower => Phase::Lower,
        ClaimKind::Upper => Phase::Upper,
    }
}

/// Pivots by Bland's rule until an end.
fn settle_table(kind: ClaimKind, state: &mut State, costs: &Costs) -> Result<Settled, SettleError>
    requires { IsReady (phase_of kind) costs.now state.old.table }
    ensures ran { HasPivoted kind costs.now state.old state.new }
    ensures count { state.new.left + length state.new.trace
        ≡ state.old.left + length state.old.trace }
    ensures end { IsSettledEnd (phase_of kind) costs.now state.new.table state.new.left result }
    ensures ready { IsReady (phase_of kind) costs.now state.new.table }
    ensures tableau { IsTableau state.new.table }
    ensures pool { state.new.pool ≡ state.old.pool }
    ensures fewer { MadeFewerThanBases state.old.table state.old.left state.new.left }
{
    let settled = settle(
        &mut state.table,
        costs,
        phase_of(kind),
        &mut state.left,
        &mut state.trace,
    );
    // Called for its clauses: the table is in the form in which tables are kept.
    let _sound = state.table.rows();
    settled
}

/// Pivots until an end; none where the table comes to rest.
pub(crate) fn settle_phase(
    setting: &Setting<'_>,
    kind: ClaimKind,
    state: &mut State,
    costs: &Costs,
) -> Result<Option<End>, NoMemory>
    requires phase { IsInPhase kind setting.now.subject costs.now state.old }
    ensures phase { IsInPhase kind setting.now.subject costs.now state.new }
    ensures pool { state.new.pool ≡ state.old.pool }
    ensures left { state.new.left ≤ state.old.left }
    ensures fewer { SettlesInFewerThanBases setting.now.subject state.old state.new }
    ensures end { IfOk result (IsPhaseSettled kind setting.now state.old state.new) }
    ensures printed { IfOk result (λ end. IfSome end IsPrintedEnd) }
{
    match settle_table(kind, state, costs) {
        Ok(Settled::AtRest) => Ok(None),
        Ok(Settled::Feasible) => Ok(Some(End::Feasible)),
        Ok(Settled::OutOfPivots) => Ok(Some(End::Open(Cause::Pivots {
            limit: setting.limits().pivots,
        }))),
        Err(refused) => Ok(Some(end_at(refused)?)),
    }
}
