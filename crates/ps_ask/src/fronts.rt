//! What is shown of an answer as it goes: its verdict, and each part as soon as it is done.
ghost use Rattle.std.specs.Prelude.{◌≡◌, ◌++◌, ◌∷◌, [], IfErr, IfOk, OnOk};
ghost use Rattle.ps_io.specs.Transfer.{Appends};
ghost use Rattle.ps_problem.specs.Problems.{HasNodes};
ghost use Rattle.ps_ask.specs.Details.{AreToldAsAsked, AreTrueOf, IsToldAsAsked, IsTrueOf};
ghost use Rattle.ps_ask.specs.Shown.{AreSettings};
ghost use Rattle.ps_ask.specs.Fronts.{AreShownAfter, AreShownParts, AreTrueAfter, IsBegunText};
ghost use Rattle.ps_ask.specs.Fronts.{IsShownPart};
ghost use Rattle.ps_ask.specs.Fronts.{IsShownVerdict, IsWhole, begun_of, part_piece, piece_of};
ghost use Rattle.ps_ask.specs.Fronts.{pieces_of, verdict_piece, verdict_shown};
ghost use Rattle.ps_ask.specs.Known.{IsModelFor, IsRightVerdictFor};
ghost use Rattle.ps_ask.specs.Rounds.{IsPending};
ghost use Rattle.ps_ask.specs.Replies.{AreAllPieces, AreShortInTime, CountsShown};
ghost use Rattle.ps_ask.specs.Replies.{Adds, ArePieces, Stops, IsCut, IsPiece, IsVerdictPiece};

use crate::company::{Company, ROUNDS};
use crate::conditions::idle_noted;
use crate::details::details_of;
use crate::judged::{judged_part, judged_verdict};
use crate::notes::{Input, MISSING, warnings_noted};
use crate::pieces::{part_piece, verdict_piece};
use crate::reply::ReplyError;
use crate::rounds::{Rounds, settle_query};
use crate::settings::Settings;
use crate::sought::Sought;
use ps_answer::{Answer, Model, Parts, QueryPart, Verdict};
use ps_engine::Engine;
use ps_guess::{InTime, Pending, Trials};
use ps_hints::sentence_lines;
use ps_io::{List, NoMemory, Sink, write_all};
use ps_problem::{Problem, Query};
use ps_spoken::Details;
use ps_table::Trace;
use std::alloc::Global;

// Writes a text that is shown.
fn show_text<O: Sink>(sink: &mut O, text: &[u8]) -> Result<(), ReplyError>
    ensures ok { OnOk result (Appends (O.written sink.old) (O.written sink.new) text.now) }
    ensures cut { IfErr result
        (λ e. IsCut e (O.written sink.old) (O.written sink.new) text.now) }
    ensures faults { CountsShown result (O.faults sink.old) (O.faults sink.new) }
{
    match write_all(sink, text) {
        Ok(()) => Ok(()),
        Err(_) => Err(ReplyError::WriteFault),
    }
}

// The verdict on the problem of trials, with the events of its run, and its piece.
fn verdict_with_piece<W: Company>(
    alloc: Global,
    settings: Settings,
    trials: &Trials<'_>,
    timed: &mut InTime<'_, Engine, W>,
) -> Result<((Verdict, Trace), Vec<u8>), NoMemory>
    requires settings { AreSettings settings }
    ensures judged { IfOk result (λ r. IsShownVerdict settings trials.now r.0.0 r.0.1) }
    ensures piece { IfOk result (λ r. r.1.items ≡ verdict_piece settings.style r.0.0) }
{
    timed.watch.turn_to(Sought::Verdict);
    let (verdict, first) = judged_verdict(alloc, settings, trials, timed)?;
    let text = verdict_piece(alloc, settings.style, &verdict)?;
    timed.watch.clear();
    Ok(((verdict, first), text))
}

// Shows the verdict on the problem of trials.
#[tactic(auto, using(crate::proofs::EndLaws::nothing_ended, crate::proofs::EndLaws::verdict_cut))]
fn show_verdict<O: Sink, W: Company>(
    alloc: Global,
    settings: Settings,
    trials: &Trials<'_>,
    timed: &mut InTime<'_, Engine, W>,
    sink: &mut O,
) -> Result<(Verdict, Trace), ReplyError>
    requires settings { AreSettings settings }
    ensures judged { IfOk result (λ r. IsShownVerdict settings trials.now r.0 r.1) }
    ensures wrote { IfOk result (Adds O.Sink sink.old sink.new (verdict_shown settings)) }
    ensures ended { Stops O.Sink sink.old sink.new (IsVerdictPiece settings trials.now) result }
    ensures faults { CountsShown result (O.faults sink.old) (O.faults sink.new) }
{
    match verdict_with_piece(alloc, settings, trials, timed) {
        Ok((verdict, text)) => match show_text(sink, &text) {
            Ok(()) => Ok(verdict),
            Err(error) => Err(error),
        },
        Err(NoMemory) => Err(ReplyError::NoMemory),
    }
}

// The part of a query of the problem of trials, of which this is known, with what is told of it,
// beside a distribution, and its piece.
#[tactic(auto, using(crate::proofs::ReachedLaws::right_shown, crate::proofs::DetailLaws::proved_for))]
fn part_with_piece<W: Company>(
    alloc: Global,
    settings: Settings,
    trials: &Trials<'_>,
    model: &Model,
    lines: &[u32],
    query: Query,
    pending: Pending,
    timed: &mut InTime<'_, Engine, W>,
) -> Result<((QueryPart, Details), Vec<u8>), NoMemory>
    requires settings { AreSettings settings }
    requires model { IsModelFor trials.now model.now }
    requires query { HasNodes trials.now.nodes query.formula query.given query.both }
    requires pending { IsPending settings trials.now query pending }
    ensures judged { IfOk result (λ r. IsShownPart settings trials.now query r.0.0) }
    ensures details { IfOk result (λ r. IsTrueOf trials.now query r.0.1) }
    ensures asked { IfOk result (λ r. IsToldAsAsked settings r.0.0 r.0.1) }
    ensures piece { IfOk result (λ r. r.1.items ≡ piece_of settings trials.now query r.0) }
{
    let part = judged_part(alloc, settings, trials, query, pending)?;
    let answer = &part.answer;
    let watch = &mut *timed.watch;
    let told = details_of(alloc, settings, trials, query, answer, model, lines, watch)?;
    let text = part_piece(alloc, settings, trials.problem(), query, &part, &told)?;
    timed.watch.clear();
    Ok(((part, told), text))
}

// Shows the part of a query of the problem of trials, of which this is known, with what is told of
// it, beside a distribution.
#[tactic(auto, using(crate::proofs::EndLaws::nothing_ended, crate::proofs::EndLaws::part_cut))]
fn show_part<O: Sink, W: Company>(
    alloc: Global,
    settings: Settings,
    trials: &Trials<'_>,
    model: &Model,
    lines: &[u32],
    query: Query,
    pending: Pending,
    timed: &mut InTime<'_, Engine, W>,
    sink: &mut O,
) -> Result<(QueryPart, Details), ReplyError>
    requires settings { AreSettings settings }
    requires model { IsModelFor trials.now model.now }
    requires query { HasNodes trials.now.nodes query.formula query.given query.both }
    requires pending { IsPending settings trials.now query pending }
    ensures judged { IfOk result (λ r. IsShownPart settings trials.now query r.0) }
    ensures details { IfOk result (λ r. IsTrueOf trials.now query r.1) }
    ensures asked { IfOk result (λ r. IsToldAsAsked settings r.0 r.1) }
    ensures wrote { IfOk result
        (Adds O.Sink sink.old sink.new (piece_of settings trials.now query)) }
    ensures ended { Stops O.Sink sink.old sink.new (IsPiece settings trials.now query) result }
    ensures faults { CountsShown result (O.faults sink.old) (O.faults sink.new) }
{
    match part_with_piece(alloc, settings, trials, model, lines, query, pending, timed) {
        Ok((part, text)) => match show_text(sink, &text) {
            Ok(()) => Ok(part),
            Err(error) => Err(error),
        },
        Err(NoMemory) => Err(ReplyError::NoMemory),
    }
}

// Adds a part, and what is told of its query.
fn add_part(
    parts: &mut Parts,
    details: &mut List<Details>,
    part: QueryPart,
    told: Details,
) -> Result<(), NoMemory>
    ensures parts { OnOk result (parts.new ≡ parts.old ++ part ∷ []) }
    ensures details { OnOk result (details.new ≡ details.old ++ told ∷ []) }
{
    parts.push(part)?;
    details.push(told)
}

// Shows the part of each query of the problem of trials, as soon as it and those before it are done,
// with what is told of it, beside a distribution.
#[tactic(auto, using(crate::proofs::EndLaws::nothing_ended))]
fn show_parts<O: Sink, W: Company>(
    alloc: Global,
    settings: Settings,
    trials: &Trials<'_>,
    model: &Model,
    lines: &[u32],
    timed: &mut InTime<'_, Engine, W>,
    sink: &mut O,
) -> Result<(Parts, List<Details>), ReplyError>
    requires settings { AreSettings settings }
    requires model { IsModelFor trials.now model.now }
    ensures judged { IfOk result (λ r. AreShownParts settings trials.now trials.now.queries r.0) }
    ensures details { IfOk result (λ r. AreTrueOf trials.now trials.now.queries r.1) }
    ensures asked { IfOk result (λ r. AreToldAsAsked settings r.0 r.1) }
    ensures wrote { IfOk result
        (Adds O.Sink sink.old sink.new (pieces_of settings trials.now)) }
    ensures ended { Stops O.Sink sink.old sink.new (AreAllPieces settings trials.now) result }
    ensures faults { CountsShown result (O.faults sink.old) (O.faults sink.new) }
{
    let mut parts = List::new(alloc);
    let mut details = List::new(alloc);
    let queries = trials.problem().queries().as_slice();
    let Ok(mut rounds) = Rounds::new(alloc, queries.len()) else {
        return Err(ReplyError::NoMemory);
    };
    for query in queries {
        let place = parts.len();
        let Ok(pending) = settle_query(alloc, settings, trials, place, &mut rounds, timed) else {
            return Err(ReplyError::NoMemory);
        };
        match show_part(
            alloc, settings, trials, model, lines, *query, pending, timed, sink,
        ) {
            Ok((part, told)) => {
                if add_part(&mut parts, &mut details, part, told).is_err() {
                    return Err(ReplyError::NoMemory);
                }
            }
            Err(error) => return Err(error),
        }
    }
    Ok((parts, details))
}

// Shows the parts of the queries that are asked behind a verdict, with what is told of each.
#[tactic(auto, using(crate::proofs::StepLaws::nothing_shown, crate::proofs::ReachedLaws::shown_model))]
fn show_parts_under<O: Sink, W: Company>(
    alloc: Global,
    settings: Settings,
    trials: &Trials<'_>,
    verdict: &Verdict,
    lines: &[u32],
    timed: &mut InTime<'_, Engine, W>,
    sink: &mut O,
) -> Result<(Parts, List<Details>), ReplyError>
    requires settings { AreSettings settings }
    requires right { IsRightVerdictFor trials.now verdict.now }
    ensures judged { IfOk result (λ r. AreShownAfter settings trials.now verdict.now r.0) }
    ensures details { IfOk result (λ r. AreTrueAfter trials.now verdict.now r.1) }
    ensures asked { IfOk result (λ r. AreToldAsAsked settings r.0 r.1) }
    ensures wrote { IfOk result
        (Adds O.Sink sink.old sink.new (pieces_of settings trials.now)) }
    ensures ended { Stops O.Sink sink.old sink.new
        (ArePieces settings trials.now verdict.now) result }
    ensures faults { CountsShown result (O.faults sink.old) (O.faults sink.new) }
{
    match verdict {
        Verdict::Consistent(model) => {
            show_parts(alloc, settings, trials, model, lines, timed, sink)
        },
        Verdict::Inconsistent(_) | Verdict::Open(_) => Ok((List::new(alloc), List::new(alloc))),
    }
}

// Shows an answer to the problem of trials as it goes, with what is told of each query.
fn show_answer<O: Sink, W: Company>(
    alloc: Global,
    settings: Settings,
    trials: &Trials<'_>,
    lines: &[u32],
    timed: &mut InTime<'_, Engine, W>,
    sink: &mut O,
) -> Result<(Answer, List<Details>), ReplyError>
    requires settings { AreSettings settings }
    ensures whole { IfOk result (λ r. IsWhole settings trials.now r.0) }
    ensures details { IfOk result (λ r. AreTrueAfter trials.now r.0.verdict r.1) }
    ensures asked { IfOk result (λ r. AreToldAsAsked settings r.0.parts r.1) }
    ensures wrote { IfOk result
        (Adds O.Sink sink.old sink.new (begun_of settings trials.now)) }
    ensures ended { Stops O.Sink sink.old sink.new (IsBegunText settings trials.now) result }
    ensures short { IfOk result (λ r. AreShortInTime settings.is_timed r.0) }
    ensures faults { CountsShown result (O.faults sink.old) (O.faults sink.new) }
{
    // Called for its clause: the problem is in order.
    let _sound = trials.problem();
    match show_verdict(alloc, settings, trials, timed, sink) {
        Ok((verdict, first)) => {
            match show_parts_under(alloc, settings, trials, &verdict, lines, timed, sink) {
                Ok((parts, details)) => Ok((
                    Answer {
                        verdict,
                        first,
                        parts,
                    },
                    details,
                )),
                Err(error) => Err(error),
            }
        }
        Err(error) => Err(error),
    }
}

// Warns of conditions that no distribution gives weight, where warnings are wanted. Where memory for
// them is lacking that is noted.
fn warn_of_conditions<W: Company>(
    alloc: Global,
    settings: Settings,
    input: Input<'_>,
    trials: &Trials<'_>,
    answer: &Answer,
    timed: &mut InTime<'_, Engine, W>,
)
    requires settings { AreSettings settings }
{
    if !settings.warns.condition {
        return;
    }
    let noted = idle_noted(alloc, settings, input, trials, answer, timed);
    timed.watch.clear();
    let text = match noted {
        Ok(found) => warnings_noted(alloc, input, &found.warnings),
        Err(NoMemory) => Err(NoMemory),
    };
    match text {
        Ok(text) => timed.watch.note(&text),
        Err(NoMemory) => timed.watch.note(MISSING),
    }
}

// The lines on which the sentences of an input begin, where they are told beneath bounds.
fn lines_told(alloc: Global, settings: Settings, input: Input<'_>) -> Result<Vec<u32>, NoMemory> {
    if settings.tells_support {
        return sentence_lines(alloc, input.bytes);
    }
    Ok(Vec::new(alloc))
}

/// Shows an answer to a problem as it goes, with what is told of each query, and gives both.
#[tactic(auto, using(crate::proofs::EndLaws::nothing_ended))]
pub fn show_front<O: Sink, W: Company>(
    alloc: Global,
    settings: Settings,
    input: Input<'_>,
    problem: &Problem,
    sink: &mut O,
    watch: &mut W,
) -> Result<(Answer, List<Details>), ReplyError>
    requires settings { AreSettings settings }
    ensures whole { IfOk result (λ r. IsWhole settings problem.now r.0) }
    ensures details { IfOk result (λ r. AreTrueAfter problem.now r.0.verdict r.1) }
    ensures asked { IfOk result (λ r. AreToldAsAsked settings r.0.parts r.1) }
    ensures wrote { IfOk result
        (Adds O.Sink sink.old sink.new (begun_of settings problem.now)) }
    ensures ended { Stops O.Sink sink.old sink.new (IsBegunText settings problem.now) result }
    ensures short { IfOk result (λ r. AreShortInTime settings.is_timed r.0) }
    ensures faults { CountsShown result (O.faults sink.old) (O.faults sink.new) }
{
    let Ok(trials) = Trials::new(alloc, problem, settings.limits.conflicts) else {
        return Err(ReplyError::NoMemory);
    };
    let Ok(mut engine) = Engine::new(alloc, problem) else {
        return Err(ReplyError::NoMemory);
    };
    engine.pause_every(ROUNDS);
    let Ok(lines) = lines_told(alloc, settings, input) else {
        return Err(ReplyError::NoMemory);
    };
    let mut timed = InTime::new(&mut engine, watch);
    match show_answer(alloc, settings, &trials, &lines, &mut timed, sink) {
        Ok((answer, details)) => {
            warn_of_conditions(alloc, settings, input, &trials, &answer, &mut timed);
            Ok((answer, details))
        }
        Err(error) => Err(error),
    }
}
