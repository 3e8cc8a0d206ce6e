//! The status of an answer.
ghost use Rattle.std.specs.Prelude.{◌≡◌, ◌↔◌, IsTrue, map, sum};
ghost use Rattle.ps_claims.specs.Claims.{open_in_part, open_in_side};
ghost use Rattle.ps_valid.specs.Answers.{part_of, parts_of, side_of};
ghost use Rattle.ps_commands.specs.Due.{status_after};

use ps_answer::{Answer, QueryAnswer, QueryPart, SideAnswer, Verdict};
use ps_messages::Status;

// Whether a side of a query has its bound.
fn is_side_done(side: &SideAnswer) -> bool
    ensures { IsTrue result ↔ (open_in_side (side_of side.now) ≡ 0) }
{
    match side {
        SideAnswer::Bound { .. } => true,
        SideAnswer::Open(_) => false,
    }
}

// Whether nothing is open in the answer to a query.
fn is_part_done(answer: &QueryAnswer) -> bool
    ensures { IsTrue result ↔ (open_in_part (part_of answer.now) ≡ 0) }
{
    match answer {
        QueryAnswer::Bounds { lower, upper, .. } => is_side_done(lower) && is_side_done(upper),
        QueryAnswer::Impossible(_) => true,
        QueryAnswer::Open(_) => false,
    }
}

// Whether nothing is open in the answers to all queries.
fn are_parts_done(parts: &[QueryPart]) -> bool
    ensures { IsTrue result ↔ (sum (map open_in_part (parts_of parts.now)) ≡ 0) }
{
    for part in parts {
        if !is_part_done(&part.answer) {
            return false;
        }
    }
    true
}

/// The status after the report of an answer.
pub fn status_of(answer: &Answer) -> Status
    ensures { result ≡ status_after answer.now }
{
    match &answer.verdict {
        Verdict::Inconsistent(_) => Status::Inconsistent,
        Verdict::Open(_) => Status::Unfinished,
        Verdict::Consistent(_) => {
            if are_parts_done(answer.parts.as_slice()) {
                Status::Done
            } else {
                Status::Unfinished
            }
        }
    }
}
