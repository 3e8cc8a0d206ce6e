//! A phase with the costs of its claim.
ghost use Rattle.std.specs.Prelude.{◌≢◌, IfOk};
ghost use Rattle.ps_simplex.specs.Rule.{IsFeasible};
ghost use Rattle.ps_problem.specs.Problems.{AreParts};
ghost use Rattle.ps_bland.specs.Rules.{simplex_of};
ghost use Rattle.ps_claims.specs.declared.claim_kind.ClaimKind.TheVariants.{Nothing};
ghost use Rattle.ps_runs.specs.Subjects.{IsAsked};
ghost use Rattle.ps_generation.specs.Counts.{MakesFewPivots};
ghost use Rattle.ps_generation.specs.Phases.{HasRoom, IsEnd, IsLeft, IsPrintedEnd};
ghost use Rattle.ps_generation.specs.States.{HasRunTable};

use crate::end::End;
use crate::phases::run_phase;
use crate::setting::Setting;
use ps_claims::ClaimKind;
use ps_io::NoMemory;
use ps_runs::State;
use std::alloc::Global;

/// A phase to its end, with its costs. After want of memory nothing is said of the state.
pub(crate) fn phase(
    alloc: Global,
    setting: &Setting<'_>,
    kind: ClaimKind,
    state: &mut State,
) -> Result<End, NoMemory>
    requires asked { IsAsked kind setting.now.subject.parts setting.now.subject.query }
    requires there { HasRunTable setting.now.subject state.old }
    requires feasible { kind ≢ Nothing → IsFeasible (simplex_of state.old.table) }
    requires room { HasRoom state.old }
    ensures parts { AreParts setting.now.subject.parts }
    ensures end { IfOk result (IsEnd kind setting.now state.old state.new) }
    ensures left { IfOk result (λ _. IsLeft kind setting.now.subject state.old state.new) }
    ensures pivots { IfOk result
        (λ _. MakesFewPivots setting.now.subject state.old state.new) }
    ensures printed { IfOk result IsPrintedEnd }
{
    let mut costs = setting.costs(alloc, kind, state)?;
    run_phase(alloc, setting, kind, state, &mut costs)
}
