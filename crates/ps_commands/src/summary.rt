//! The summary of the answer to a made problem.
ghost use Rattle.std.specs.Prelude.{◌≡◌, ◌++◌, codes};
ghost use Rattle.std.specs.Fmt.{signed_decimal};
ghost use Rattle.ps_commands.specs.Replies.{IsText};
ghost use Rattle.ps_commands.specs.Summaries as words;
ghost use Rattle.ps_commands.specs.Summaries.{counts_words, part_words, query_words, side_words};
ghost use Rattle.ps_commands.specs.Summaries.{summary_with};

use ps_answer::{Answer, QueryAnswer, QueryPart, SideAnswer, Verdict};
use ps_valid::Accepted;
use std::alloc::{AllocError, Global};

// The word of a verdict.
#[tactic(auto, unfolding(crate::specs::Summaries::verdict_word))]
fn verdict_word(verdict: &Verdict) -> &'static str
    ensures { result.now ≡ words.verdict_word verdict.now }
{
    match verdict {
        Verdict::Consistent(_) => "consistent",
        Verdict::Inconsistent(_) => "inconsistent",
        Verdict::Open(_) => "open",
    }
}

// A fraction as it is written.
fn fraction_text(alloc: Global, over: i128, under: i128) -> Result<String, AllocError>
    ensures { IsText result (signed_decimal over ++ (codes "/" ++ signed_decimal under)) }
{
    format!(in alloc; "{over}/{under}")
}

// The bound on a side, or that it is open.
#[tactic(auto, unfolding(crate::specs::Summaries::side_words))]
fn side_text(alloc: Global, side: &SideAnswer) -> Result<String, AllocError>
    ensures { IsText result (side_words side.now) }
{
    match side {
        SideAnswer::Bound { value, .. } => {
            fraction_text(alloc, value.numerator(), value.denominator())
        }
        SideAnswer::Open(_) => String::from_str(alloc, "open"),
    }
}

// What is answered to a query.
#[tactic(auto, unfolding(crate::specs::Summaries::query_words))]
fn query_text(alloc: Global, answer: &QueryAnswer) -> Result<String, AllocError>
    ensures { IsText result (query_words answer.now) }
{
    match answer {
        QueryAnswer::Bounds { lower, upper, .. } => {
            let lower = side_text(alloc, lower)?;
            let upper = side_text(alloc, upper)?;
            format!(in alloc; "{lower} to {upper}")
        }
        QueryAnswer::Impossible(_) => String::from_str(alloc, "impossible"),
        QueryAnswer::Open(_) => String::from_str(alloc, "open"),
    }
}

// What is answered to the one query of a made problem, where it has a part.
#[tactic(auto, unfolding(crate::specs::Summaries::part_words))]
fn part_text(alloc: Global, parts: &[QueryPart]) -> Result<String, AllocError>
    ensures { IsText result (part_words parts.now) }
{
    match parts {
        [] => Ok(String::new(alloc)),
        [part, ..] => {
            let answer = query_text(alloc, &part.answer)?;
            format!(in alloc; "; query 1: {answer}")
        }
    }
}

// How many claims were accepted, and how much is open.
#[tactic(auto, unfolding(crate::specs::Summaries::counts_words))]
fn counts_text(alloc: Global, accepted: Accepted) -> Result<String, AllocError>
    ensures { IsText result (counts_words accepted.claims accepted.unfinished) }
{
    let claims = accepted.claims;
    let unfinished = accepted.unfinished;
    format!(in alloc; "; check accepted: claims {claims}, open {unfinished}")
}

/// The summary of an answer that was accepted with these counts, a line.
pub fn summary_text(
    alloc: Global,
    answer: &Answer,
    accepted: Accepted,
) -> Result<String, AllocError>
    ensures { IsText result (summary_with answer.now accepted.claims accepted.unfinished) }
{
    let verdict = verdict_word(&answer.verdict);
    let part = part_text(alloc, answer.parts.as_slice())?;
    let counts = counts_text(alloc, accepted)?;
    format!(in alloc; "# {verdict}{part}{counts}\n")
}
