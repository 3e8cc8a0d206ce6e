//! How much is open in an answer, and its status.
ghost use Rattle.std.specs.Prelude.{◌≡◌, ◌≤◌, ◌+◌, ◌<◌, ◌^◌, map, sum};
ghost use Rattle.ps_answer.specs.declared.answer.Verdict.{Verdict};
ghost use Rattle.ps_claims.specs.Claims.{open_in_part, open_in_side, open_in_verdict};
ghost use Rattle.ps_claims.specs.Claims.{unfinished_of};
ghost use Rattle.ps_valid.specs.Answers.{answer_of, part_of, parts_of, side_of, verdict_of};
ghost use Rattle.ps_ask.specs.Statuses.{status_after, status_by};

use crate::late::is_late;
use crate::status::Status;
use ps_answer::{Answer, QueryAnswer, QueryPart, SideAnswer, Verdict};

// How much is open in a verdict.
fn open_verdict(verdict: &Verdict) -> u8
    ensures count { result ≡ open_in_verdict (verdict_of verdict.now) }
    ensures few { result ≤ 1 }
{
    match verdict {
        Verdict::Open(_) => 1,
        Verdict::Consistent(_) | Verdict::Inconsistent(_) => 0,
    }
}

// How much is open in a side of a query.
fn open_side(side: &SideAnswer) -> u8
    ensures count { result ≡ open_in_side (side_of side.now) }
    ensures few { result ≤ 1 }
{
    match side {
        SideAnswer::Bound { .. } => 0,
        SideAnswer::Open(_) => 1,
    }
}

// How much is open in the answer to a query.
fn open_part(answer: &QueryAnswer) -> u8
    ensures count { result ≡ open_in_part (part_of answer.now) }
    ensures few { result ≤ 2 }
{
    match answer {
        QueryAnswer::Bounds { lower, upper, .. } => open_side(lower) + open_side(upper),
        QueryAnswer::Impossible(_) => 0,
        QueryAnswer::Open(_) => 1,
    }
}

// How much is open in the answers to all queries.
fn open_parts(parts: &[QueryPart]) -> u128
    ensures count { result ≡ sum (map open_in_part (parts_of parts.now)) }
    ensures few { result < 2 ^ 66 }
{
    let mut total = 0;
    for part in parts {
        total += u128::from(open_part(&part.answer));
    }
    total
}

/// How much is open in an answer: an open verdict, query or side counts once.
pub fn open_of(answer: &Answer) -> u128
    ensures count { result ≡ unfinished_of (answer_of answer.now) }
    ensures few { result < 2 ^ 67 }
{
    u128::from(open_verdict(&answer.verdict)) + open_parts(answer.parts.as_slice())
}

// The status after a verdict, where so much is open.
fn status_with(verdict: &Verdict, unfinished: u128) -> Status
    ensures { result ≡ status_by verdict.now unfinished }
{
    match verdict {
        Verdict::Inconsistent(_) => Status::Inconsistent,
        Verdict::Consistent(_) | Verdict::Open(_) => {
            if unfinished == 0 {
                Status::Done
            } else {
                Status::Unfinished
            }
        }
    }
}

/// The status after an answer, where time was limited or not.
pub fn status_of(timed: bool, answer: &Answer) -> Status
    ensures { result ≡ status_after timed answer.now }
{
    if is_late(timed, answer) {
        return Status::Late;
    }
    status_with(&answer.verdict, open_of(answer))
}
