//! Warnings about sentences and queries.
ghost use Rattle.std.specs.Prelude.{◌≡◌, ◌↔◌, ◌<◌, IfOk, IsSome, IsTrue};
ghost use Rattle.std.specs.Prelude.{None, false, length};
ghost use Rattle.ps_problem.specs.Problems.{tree_at, IsSentence};
ghost use Rattle.ps_hints.specs.Warnings.{is_one_or, IsBelow, IsTurned};

use crate::about::{begin_about, begin_about_sentence};
use crate::disjunctions::is_one_or;
use crate::kind::WarningKind;
use crate::warning::Warning;
use ps_io::NoMemory;
use ps_problem::{Bound, Linear, Problem, Sentence, Side};
use std::alloc::Global;

// What is said of a `|` that may be meant for `given`.
const OR: &str = ": | is \"or\"; for a condition write given";

// What is said of an interval whose first number is the greater one.
const TURNED: &str = ": the ends of the interval are turned round, so nothing meets it";

// What is said of a sentence that stands twice.
const TWICE: &str = ": the same sentence stands on line ";

// Whether a `given` stands in a sentence.
fn is_conditional(sentence: &Sentence) -> bool {
    match sentence {
        Sentence::Plain { first, .. } => first.given.is_some(),
        Sentence::Linear(_) => false,
    }
}

/// Whether a `given` stands in a problem: who wrote one knows how conditions are written.
pub(crate) fn has_given(problem: &Problem) -> bool {
    problem.sentences().as_slice().iter().any(is_conditional)
        || problem
            .queries()
            .as_slice()
            .iter()
            .any(|query| query.given.is_some())
}

/// Whether a bound states a law: that the probability is 1, or at least 9/10 or more.
pub(crate) fn is_law(bound: &Bound) -> bool {
    match bound.side {
        Side::Exactly => bound.num >= bound.den,
        Side::AtLeast => 10 * u64::from(bound.num) >= 9 * u64::from(bound.den),
        Side::AtMost => false,
    }
}

/// The warning about a formula that is joined by one `|`, at its top, and has no condition.
pub(crate) fn or_warning(
    alloc: Global,
    line: Option<u32>,
    problem: &Problem,
    node: u32,
    given: Option<u32>,
) -> Result<Option<Warning>, NoMemory>
    requires { node < length problem.now.nodes }
    ensures given { IsSome given → IfOk result (λ w. w ≡ None) }
    ensures no_or { is_one_or (tree_at problem.now.nodes node) ≡ false
        → IfOk result (λ w. w ≡ None) }
{
    if given.is_some() || !is_one_or(alloc, problem, node)? {
        return Ok(None);
    }
    let message = begin_about(alloc, problem, node, None, OR)?;
    Ok(Some(Warning {
        kind: WarningKind::Or,
        line,
        text: message.into_text(),
    }))
}

// Whether the value of the first bound is above that of the second.
fn is_above(first: &Bound, second: &Bound) -> bool
    ensures { IsTrue result ↔ IsBelow first.now second.now }
{
    let left = u64::from(first.num) * u64::from(second.den);
    let right = u64::from(second.num) * u64::from(first.den);
    left > right
}

// Whether the first number of a sentence's interval is the greater one.
fn is_turned(sentence: &Sentence) -> bool
    ensures { IsTrue result ↔ IsTurned sentence.now }
{
    match sentence {
        Sentence::Plain { first, second } => match second {
            Some(second) => is_above(first, second),
            None => false,
        },
        Sentence::Linear(linear) => match linear.upper {
            Some(most) => most < linear.right,
            None => false,
        },
    }
}

/// The warning about an interval whose first number is the greater one.
pub(crate) fn turned_warning(
    alloc: Global,
    line: Option<u32>,
    problem: &Problem,
    sentence: &Sentence,
) -> Result<Option<Warning>, NoMemory>
    requires { IsSentence problem.now.nodes sentence.now }
    ensures { IfOk result (λ w. IsSome w ↔ IsTurned sentence.now) }
{
    if !is_turned(sentence) {
        return Ok(None);
    }
    let message = begin_about_sentence(alloc, problem, sentence, TURNED)?;
    Ok(Some(Warning {
        kind: WarningKind::Interval,
        line,
        text: message.into_text(),
    }))
}

// Whether two sums are the same.
fn is_same_sum(one: &Linear, other: &Linear) -> bool {
    one.terms.as_slice() == other.terms.as_slice()
        && one.scale == other.scale
        && one.side == other.side
        && one.right == other.right
        && one.upper == other.upper
}

// Whether two sentences are the same.
fn is_same(one: &Sentence, other: &Sentence) -> bool {
    match (one, other) {
        (
            Sentence::Plain { first, second },
            Sentence::Plain {
                first: lower,
                second: upper,
            },
        ) => first == lower && second == upper,
        (Sentence::Linear(one), Sentence::Linear(other)) => is_same_sum(one, other),
        _ => false,
    }
}

// The place of the first of some sentences that is this one.
fn place_of(sentences: &[Sentence], sentence: &Sentence) -> Option<usize> {
    sentences.iter().position(|other| is_same(other, sentence))
}

/// The warning about a sentence that stands among those before it too.
pub(crate) fn twice_warning(
    alloc: Global,
    lines: &[u32],
    index: usize,
    problem: &Problem,
    sentence: &Sentence,
) -> Result<Option<Warning>, NoMemory>
    requires { IsSentence problem.now.nodes sentence.now }
{
    let Some(place) = place_of(problem.sentences().as_slice(), sentence) else {
        return Ok(None);
    };
    let Some(before) = lines.get(place) else {
        return Ok(None);
    };
    if place >= index {
        return Ok(None);
    }
    let mut message = begin_about_sentence(alloc, problem, sentence, TWICE)?;
    message.push_number(*before)?;
    Ok(Some(Warning {
        kind: WarningKind::Twice,
        line: lines.get(index).copied(),
        text: message.into_text(),
    }))
}
