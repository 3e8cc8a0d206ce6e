//! Irreducible lists of sentences that can't be met together.
ghost use Rattle.std.specs.Prelude.{length, IfOk, IfSome};
ghost use Rattle.ps_generation.specs.Phases.{AreLimits};
ghost use Rattle.ps_explain.specs.Explanations.{IsExplanation};
ghost use Rattle.ps_explain.specs.Steps.{AreNeeded, AreWitnesses, IsConflict};
ghost use Rattle.ps_explain.specs.Steps.{AddsModel, IsNarrowed, IsNarrowedAt};

use crate::conflict::Conflict;
use crate::explained::{Explained, Models};
use crate::means::Means;
use crate::met::{Met, none_met, put_met};
use crate::numbers::{is_kept, numbers_of};
use crate::outcome::{Tried, outcome_without};
use crate::witnesses::Witnesses;
use ps_guesser::Guesser;
use ps_io::{List, NoMemory};
use std::alloc::Global;

/// Leaves out the sentence at a place where the others can't be met together.
#[tactic(auto, using(crate::proofs::Needed::needed_not_kept, crate::proofs::Needed::needed_model))]
fn narrow_at<G: Guesser>(
    alloc: Global,
    means: &Means<'_, '_>,
    core: &mut Conflict,
    place: usize,
    guesser: &mut G,
    met: &mut Met,
) -> Result<Option<Explained>, NoMemory>
    requires conflict { IsConflict means.now.trials.now core.old }
    requires limits { AreLimits means.now.limits }
    ensures { IfOk result
        (IsNarrowedAt means.now.limits means.now.trials.now place core.old core.new) }
{
    if !is_kept(core.kept.as_slice(), place) {
        return Ok(None);
    }
    match outcome_without(alloc, means, core, place, guesser, met)? {
        Tried::Needed(model) => {
            put_met(met, place, model);
            Ok(None)
        }
        Tried::Left(smaller) => {
            *core = smaller;
            Ok(None)
        }
        Tried::Open(open) => Ok(Some(open)),
    }
}

/// Leaves out sentences one after the other as long as the rest can't be met together (J. W.
/// Chinneck, E. W. Dravnieks, 1991).
#[tactic(auto, using(crate::proofs::Needed::none_needed))]
fn narrow<G: Guesser>(
    alloc: Global,
    means: &Means<'_, '_>,
    conflict: &mut Conflict,
    guesser: &mut G,
    met: &mut Met,
) -> Result<Option<Explained>, NoMemory>
    requires conflict { IsConflict means.now.trials.now conflict.old }
    requires limits { AreLimits means.now.limits }
    ensures { IfOk result (IsNarrowed means.now.limits means.now.trials.now conflict.new) }
{
    for place in 0..means.trials.problem().sentences().len() {
        if let Some(open) = narrow_at(alloc, means, conflict, place, guesser, met)? {
            return Ok(Some(open));
        }
    }
    Ok(None)
}

/// Adds a distribution that meets all sentences but the one at a place, if that one is kept.
#[tactic(auto, using(crate::proofs::Models::models_not_kept))]
fn push_model<G: Guesser>(
    alloc: Global,
    means: &Means<'_, '_>,
    core: &Conflict,
    place: usize,
    guesser: &mut G,
    met: &mut Met,
    models: &mut Models,
) -> Result<Option<Explained>, NoMemory>
    requires conflict { IsConflict means.now.trials.now core.now }
    requires needed { AreNeeded means.now.trials.now core.now.kept (length core.now.kept) }
    requires limits { AreLimits means.now.limits }
    ensures more { IfOk result
        (AddsModel means.now.trials.now core.now place models.old models.new) }
    ensures early { IfOk result (λ o. IfSome o
        (IsExplanation means.now.limits means.now.trials.now)) }
{
    // Called for its clauses: the problem is within the limits.
    let _sound = means.trials.problem();
    if !is_kept(core.kept.as_slice(), place) {
        return Ok(None);
    }
    match outcome_without(alloc, means, core, place, guesser, met)? {
        Tried::Needed(model) => {
            models.push(model)?;
            Ok(None)
        }
        Tried::Left(_) => unreachable!(),
        Tried::Open(open) => Ok(Some(open)),
    }
}

/// For each sentence of a core a distribution that meets the others, unless a limit is reached.
#[tactic(auto, using(crate::proofs::Models::models_none))]
fn models_without<G: Guesser>(
    alloc: Global,
    means: &Means<'_, '_>,
    core: &Conflict,
    guesser: &mut G,
    met: &mut Met,
) -> Result<Witnesses, NoMemory>
    requires conflict { IsConflict means.now.trials.now core.now }
    requires needed { AreNeeded means.now.trials.now core.now.kept (length core.now.kept) }
    requires limits { AreLimits means.now.limits }
    ensures { IfOk result (AreWitnesses means.now.limits means.now.trials.now core.now.kept) }
{
    let mut models = List::new(alloc);
    for place in 0..core.kept.len() {
        if let Some(open) = push_model(alloc, means, core, place, guesser, met, &mut models)? {
            return Ok(Witnesses::Open(open));
        }
    }
    Ok(Witnesses::Found(models))
}

/// The explanation by a core: each of its sentences is needed.
fn explained_by<G: Guesser>(
    alloc: Global,
    means: &Means<'_, '_>,
    core: Conflict,
    guesser: &mut G,
    met: &mut Met,
) -> Result<Explained, NoMemory>
    requires conflict { IsConflict means.now.trials.now core }
    requires needed { AreNeeded means.now.trials.now core.kept (length core.kept) }
    requires limits { AreLimits means.now.limits }
    ensures { IfOk result (IsExplanation means.now.limits means.now.trials.now) }
{
    // It has the clause that the problem is within the limits.
    let problem = means.trials.problem();
    match models_without(alloc, means, &core, guesser, met)? {
        Witnesses::Found(without) => Ok(Explained::Core {
            sentences: numbers_of(alloc, problem, core.kept.as_slice())?,
            dual: core.dual,
            without,
        }),
        Witnesses::Open(open) => Ok(open),
    }
}

/// The explanation by sentences of a conflict that are all needed.
pub(crate) fn core_within<G: Guesser>(
    alloc: Global,
    means: &Means<'_, '_>,
    conflict: Conflict,
    guesser: &mut G,
) -> Result<Explained, NoMemory>
    requires conflict { IsConflict means.now.trials.now conflict }
    requires limits { AreLimits means.now.limits }
    ensures { IfOk result (IsExplanation means.now.limits means.now.trials.now) }
{
    let mut core = conflict;
    let mut met = none_met(alloc, means.trials.problem())?;
    if let Some(open) = narrow(alloc, means, &mut core, guesser, &mut met)? {
        return Ok(open);
    }
    explained_by(alloc, means, core, guesser, &mut met)
}
