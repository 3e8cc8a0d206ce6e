//! What a problem comes to without one of its sentences.
ghost use Rattle.std.specs.Prelude.{◌≡◌, IfOk};
ghost use Rattle.ps_runs.specs.Kept.{IsChoice};
ghost use Rattle.ps_generation.specs.Phases.{AreLimits};
ghost use Rattle.ps_explain.specs.Rests.{all_but, IsVerdictOver, IsVerdictWithout};

use crate::means::Means;
use crate::outcome::{Outcome, outcome_over};
use ps_answer::Verdict;
use ps_generation::Limits;
use ps_guess::Trials;
use ps_guesser::Guesser;
use ps_io::NoMemory;
use ps_problem::Problem;
use std::alloc::Global;

/// Each sentence is kept but for the one of a number, from 1.
fn all_but(alloc: Global, problem: &Problem, number: u32) -> Result<Vec<bool>, NoMemory>
    ensures kept { IfOk result (λ kept. kept.items ≡ all_but problem.now number) }
    ensures choice { IfOk result (λ kept. IsChoice kept.items problem.now) }
{
    let mut kept = Vec::from_elem(alloc, true, problem.sentences().len())?;
    let place = number.saturating_sub(1) as usize;
    if place < kept.len() {
        kept[place] = false;
    }
    Ok(kept)
}

/// What the kept sentences come to.
#[tactic(auto, using(crate::proofs::NotMet::shown_not_met))]
fn verdict_over<G: Guesser>(
    alloc: Global,
    means: &Means<'_, '_>,
    kept: &[bool],
    guesser: &mut G,
) -> Result<Verdict, NoMemory>
    requires kept { IsChoice kept.now means.now.trials.now }
    requires limits { AreLimits means.now.limits }
    ensures { IfOk result (IsVerdictOver means.now.limits means.now.trials.now kept.now) }
{
    // Called for its clauses: the problem is within the limits.
    let _problem = means.trials.problem();
    match outcome_over(alloc, means, kept, guesser)? {
        Outcome::Met(model) => Ok(Verdict::Consistent(model)),
        Outcome::NotMet(conflict) => Ok(Verdict::Inconsistent(conflict.dual)),
        Outcome::Open { cause, .. } => Ok(Verdict::Open(cause)),
    }
}

/// What a problem comes to without the sentence of a number, from 1: a distribution meets all the
/// others, they can't be met together either, or the run over them is open. It is guessed, and what
/// no guess shows comes of a lawful run within limits of pivots and conflicts. The guesser is left
/// with these sentences. Number 0 leaves out the first sentence too, and a number past the last one
/// leaves out none.
pub fn verdict_without<G: Guesser>(
    alloc: Global,
    problem: &Problem,
    limits: Limits,
    number: u32,
    guesser: &mut G,
) -> Result<Verdict, NoMemory>
    requires limits { AreLimits limits }
    ensures { IfOk result (IsVerdictWithout limits problem.now number) }
{
    let trials = Trials::new(alloc, problem, limits.conflicts)?;
    let means = Means {
        trials: &trials,
        limits,
    };
    let kept = all_but(alloc, problem, number)?;
    verdict_over(alloc, &means, &kept, guesser)
}
