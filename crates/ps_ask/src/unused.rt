//! The sentences on which no bound rests.
ghost use Rattle.std.specs.Prelude.{◌≡◌, ◌≤◌, ◌++◌, IfOk, OnOk, length};
ghost use Rattle.ps_problem.specs.declared.limits.TheConstants.{MOST_BOUNDS};
ghost use Rattle.ps_ask.specs.Unused.{is_among, is_named, is_told, is_used, unused_from};
ghost use Rattle.ps_ask.specs.Unused.{unused_after, unused_one};

use crate::settings::Settings;
use ps_answer::{Answer, Verdict};
use ps_io::{List, NoMemory};
use ps_problem::{Problem, Sentence};
use ps_spoken::Details;
use ps_support::{Support, Supporting};
use std::alloc::Global;

// Whether the sentence of a number is among these.
fn is_among(number: u32, sentences: &[Supporting]) -> bool
    ensures { result ≡ is_among number sentences.now }
{
    sentences.iter().any(|one| one.sentence == number)
}

// Whether a bound rests on it, by what is told of the bound.
fn is_named(number: u32, support: &Option<Support>) -> bool
    ensures { result ≡ is_named number support.now }
{
    match support {
        Some(known) => is_among(number, known.sentences.as_slice()),
        None => false,
    }
}

// Whether a bound of a query does.
fn is_told(number: u32, told: &Details) -> bool
    ensures { result ≡ is_told number told.now }
{
    if is_named(number, &told.lower.support) {
        return true;
    }
    is_named(number, &told.upper.support)
}

// Whether a bound of some query does.
fn is_used(number: u32, details: &[Details]) -> bool
    ensures { result ≡ is_used number details.now }
{
    details.iter().any(|told| is_told(number, told))
}

// Notes a sentence on which no bound rests.
fn push_unused(unused: &mut List<u32>, number: u32, details: &[Details]) -> Result<(), NoMemory>
    ensures { OnOk result (unused.new ≡ unused.old ++ unused_one number details.now) }
{
    if is_used(number, details) {
        return Ok(());
    }
    unused.push(number)
}

// The sentences on which no bound rests.
#[tactic(auto, using(crate::proofs::UnusedLaws::unused_next, crate::proofs::UnusedLaws::unused_all))]
fn unused_by(
    alloc: Global,
    sentences: &[Sentence],
    details: &[Details],
) -> Result<List<u32>, NoMemory>
    requires { length sentences.now ≤ MOST_BOUNDS }
    ensures { IfOk result (λ unused. unused ≡ unused_from 1 sentences.now details.now) }
{
    let mut unused = List::new(alloc);
    for place in 0..sentences.len() {
        push_unused(&mut unused, place as u32 + 1, details)?;
    }
    Ok(unused)
}

/// The sentences on which no bound rests, where they are asked for and some distribution meets all
/// sentences.
#[tactic(auto, using(ps_support::proofs::Owned::sentences_within))]
pub(crate) fn unused_in(
    alloc: Global,
    settings: Settings,
    problem: &Problem,
    answer: &Answer,
    details: &[Details],
) -> Result<Option<List<u32>>, NoMemory>
    ensures { IfOk result (λ ns. ns
        ≡ unused_after settings problem.now answer.now details.now) }
{
    if !settings.tells_support {
        return Ok(None);
    }
    match &answer.verdict {
        Verdict::Consistent(_) => {
            // Called for its clauses: the sentences are few.
            let _few = problem.rows();
            let sentences = problem.sentences().as_slice();
            Ok(Some(unused_by(alloc, sentences, details)?))
        }
        Verdict::Inconsistent(_) | Verdict::Open(_) => Ok(None),
    }
}
