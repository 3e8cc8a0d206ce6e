//! The explanation of a problem.
ghost use Rattle.std.specs.Prelude.{IfOk};
ghost use Rattle.ps_runs.specs.Kept.{AreAllKept, IsChoice};
ghost use Rattle.ps_generation.specs.Phases.{AreLimits};
ghost use Rattle.ps_explain.specs.Explanations.{IsExplanation, IsPrintedExplanation};
ghost use Rattle.ps_explain.specs.Explanations.{IsRightExplanation};
ghost use Rattle.ps_explain.specs.Texts.{HasShortLines};

use crate::explained::Explained;
use crate::irreducible::core_within;
use crate::means::Means;
use crate::numbers::numbers_of;
use crate::outcome::{Outcome, outcome_over};
use ps_generation::Limits;
use ps_guess::Trials;
use ps_guesser::Guesser;
use ps_io::{List, NoMemory};
use ps_problem::Problem;
use std::alloc::Global;

/// Each sentence is kept.
fn all_kept(alloc: Global, problem: &Problem) -> Result<List<bool>, NoMemory>
    ensures each { IfOk result (λ kept. IsChoice kept problem.now) }
    ensures all { IfOk result AreAllKept }
{
    let mut kept = List::new(alloc);
    for _ in 0..problem.sentences().len() {
        kept.push(true)?;
    }
    Ok(kept)
}

/// The explanation that these means lead to.
fn explain_with<G: Guesser>(
    alloc: Global,
    means: &Means<'_, '_>,
    guesser: &mut G,
) -> Result<Explained, NoMemory>
    requires limits { AreLimits means.now.limits }
    ensures { IfOk result (IsExplanation means.now.limits means.now.trials.now) }
{
    let problem = means.trials.problem();
    let kept = all_kept(alloc, problem)?;
    match outcome_over(alloc, means, kept.as_slice(), guesser)? {
        Outcome::Met(model) => Ok(Explained::Consistent(model)),
        Outcome::NotMet(conflict) => core_within(alloc, means, conflict, guesser),
        Outcome::Open { cause, first } => Ok(Explained::Open {
            sentences: numbers_of(alloc, problem, kept.as_slice())?,
            cause,
            first,
        }),
    }
}

/// Why a problem's sentences can't be met together: some of them that can't, each of which is
/// needed for it; or a distribution that meets all of them. What some sentences come to is guessed,
/// and what no guess shows comes of a lawful run within limits of pivots and conflicts; an
/// explanation is open only by these limits or for a number of its run that is too wide. The
/// guesser is told each world that a guess overlooks, and which sentences are kept; it is left with
/// those that were looked at last.
#[tactic(auto, using(crate::proofs::Short::found_right, crate::proofs::Short::found_printed, crate::proofs::Short::found_short))]
pub fn explain<G: Guesser>(
    alloc: Global,
    problem: &Problem,
    limits: Limits,
    guesser: &mut G,
) -> Result<Explained, NoMemory>
    requires limits { AreLimits limits }
    ensures right { IfOk result (IsRightExplanation limits problem.now) }
    ensures printed { IfOk result IsPrintedExplanation }
    ensures short { IfOk result HasShortLines }
{
    // Called for its clauses: the problem is within the limits.
    let _sound = problem.rows();
    let trials = Trials::new(alloc, problem, limits.conflicts)?;
    let means = Means {
        trials: &trials,
        limits,
    };
    explain_with(alloc, &means, guesser)
}
