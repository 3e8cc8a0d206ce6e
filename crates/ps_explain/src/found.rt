//! What is found by guesses.
ghost use Rattle.std.specs.Prelude.{◌≡◌, ◌↔◌, length, IfOk, IfSome, IsTrue};
ghost use Rattle.ps_runs.specs.Kept.{IsChoice, kept_parts};
ghost use Rattle.ps_guess.specs.Trials.{IsFoundModel};
ghost use Rattle.ps_explain.specs.Explanations.{AreAmong};
ghost use Rattle.ps_explain.specs.Steps.{IsAmongAt, IsConflictAmong};

use crate::conflict::Conflict;
use crate::numbers::is_kept;
use crate::used::used_by;
use ps_answer::Model;
use ps_guess::{Trial, Trials, find_nothing};
use ps_guesser::Guesser;
use ps_io::NoMemory;
use std::alloc::Global;

/// The guess, where it is a distribution that meets the kept sentences.
pub(crate) fn shown_model(
    alloc: Global,
    trials: &Trials<'_>,
    kept: &[bool],
    guess: Option<Model>,
) -> Result<Option<Model>, NoMemory>
    requires kept { IsChoice kept.now trials.now }
    ensures { IfOk result (λ o. IfSome o (IsFoundModel (kept_parts kept.now trials.now))) }
{
    let Some(model) = guess else {
        return Ok(None);
    };
    match trials.model_of(alloc, kept, model)? {
        Trial::Shown(model) => Ok(Some(model)),
        _ => Ok(None),
    }
}

/// A distribution that is found to meet the kept sentences, which guesses are about.
pub(crate) fn find_model<G: Guesser>(
    alloc: Global,
    trials: &Trials<'_>,
    kept: &[bool],
    guesser: &mut G,
) -> Result<Option<Model>, NoMemory>
    requires kept { IsChoice kept.now trials.now }
    ensures { IfOk result (λ o. IfSome o (IsFoundModel (kept_parts kept.now trials.now))) }
{
    let guess = guesser.model(trials.problem())?;
    shown_model(alloc, trials, kept, guess)
}

/// Whether the sentence at a place is kept by the second list if it is by the first.
fn is_among(few: &[bool], many: &[bool], place: usize) -> bool
    ensures { IsTrue result ↔ IsAmongAt few.now many.now place }
{
    !is_kept(few, place) || is_kept(many, place)
}

/// Whether the sentences that are kept by the first list are by the second.
#[tactic(auto, using(crate::proofs::Guessed::among_none, crate::proofs::Guessed::among_more, crate::proofs::Guessed::among_all, crate::proofs::Parts::among_at))]
fn are_among(few: &[bool], many: &[bool]) -> bool
    requires { length few.now ≡ length many.now }
    ensures { IsTrue result ↔ AreAmong few.now many.now }
{
    for place in 0..few.len() {
        if !is_among(few, many, place) {
            return false;
        }
    }
    true
}

/// Some of the kept sentences, which guesses are about, that are found not to be met together.
#[tactic(auto, using(crate::proofs::Guessed::dual_conflict))]
pub(crate) fn find_conflict<G: Guesser>(
    alloc: Global,
    trials: &Trials<'_>,
    kept: &[bool],
    guesser: &mut G,
) -> Result<Option<Conflict>, NoMemory>
    requires kept { IsChoice kept.now trials.now }
    ensures { IfOk result (λ o. IfSome o (IsConflictAmong trials.now kept.now)) }
{
    let Some(dual) = find_nothing(alloc, trials, None, guesser)? else {
        return Ok(None);
    };
    let sentences = trials.problem().sentences().as_slice();
    let used = used_by(alloc, sentences, dual.rows.as_slice())?;
    if used.len() != kept.len() || !are_among(used.as_slice(), kept) {
        return Ok(None);
    }
    Ok(Some(Conflict { kept: used, dual }))
}
