//! Reports and what is said of them, worked out by hand from what a report claims.
ghost use Rattle.std.specs.Prelude.{IfSome};
ghost use Rattle.ps_problem.specs.Problems.{HasNodes};
ghost use Rattle.ps_valid.specs.Limits.{IsSmallAnswer, IsSmallPart, IsSmallSide};

use ps_answer::{Answer, QueryAnswer, SideAnswer};
use ps_claims::ClaimKind;
use ps_pb::StepRefused;
use ps_problem::{Problem, Query};
use ps_read::read_whole;
use ps_reader::read_report;
use ps_valid::{
    Accepted, CheckError, Claim, Reason, Refusal, check, check_bound, reports_are_small,
};
use std::alloc::Global;

// The chance that it rained where the road is wet.
const EVIDENCE: &[u8] =
    b"psat 1; P(wet given rain) = 4/5; P(rain) = 0.5; query P(rain given wet); end;";

// It is 4/9 at least and 1 at most.
const EVIDENCE_DIVIDED: &[u8] = b"report 1\nconsistent\nmodel 10 3\nw 4 11\nw 1 01\nw 5 00\nt 0\n\
    query 1\nbounds\nt 0\n\
    lower 4/9\nmodel 10 3\nw 4 11\nw 1 01\nw 5 10\n\
    dual 9 4 2\ny 1 4\ns 8 -3 0 1 2 6 7 0\ns 9 0 8 7 6 0\nt 0\n\
    upper 1/1\nmodel 10 3\nw 4 11\nw 1 01\nw 5 00\ndual 1 1 1\ny 0 0\ns 8 0 7 5 0\nt 0\nend\n";

// The same, but the weight of rain and a wet road isn't divided by that of a wet road.
const EVIDENCE_NOT_DIVIDED: &[u8] =
    b"report 1\nconsistent\nmodel 10 3\nw 4 11\nw 1 01\nw 5 00\nt 0\n\
    query 1\nbounds\nt 0\n\
    lower 2/5\nmodel 10 3\nw 4 11\nw 1 01\nw 5 10\n\
    dual 9 4 2\ny 1 4\ns 8 -3 0 1 2 6 7 0\ns 9 0 8 7 6 0\nt 0\n\
    upper 1/1\nmodel 10 3\nw 4 11\nw 1 01\nw 5 00\ndual 1 1 1\ny 0 0\ns 8 0 7 5 0\nt 0\nend\n";

const IMPOSSIBLE: &[u8] =
    b"psat 1; P(rain) = 0; P(flood -> rain) = 1; query P(loss given flood); end;";

pub(crate) const INCONSISTENT: &[u8] =
    b"psat 1; P(rain) >= 2/3; P(rain -> wet) = 1; P(wet) <= 1/2; end;";

const WEATHER: &[u8] = b"psat 1; P(rain) = 3/10; P(!wind) = 1/2; end;";

const HALF: &[u8] = b"psat 1; P(a) = 1/2; end;";

// The second of these bounds is the upper one of an interval; a is at least 1/2, since b is at most 1.
const SUM: &[u8] = b"psat 2; 1 P(a) + 1 P(b) in [3/2, 7/4]; 1 P(a) <= 1/4; end;";

const AHEAD: &[u8] = b"psat 2; P(a) - P(b) >= 1/2; end;";

pub(crate) const HALF_ASKED: &[u8] = b"psat 1; P(a) >= 1/2; query P(a); end;";

// Problems, reports, how much they claim and how much they leave open.
pub(crate) const ACCEPTED: [(&[u8], &[u8], u32, u32); 9] = [
    (EVIDENCE, EVIDENCE_DIVIDED, 3, 0),
    (
        IMPOSSIBLE,
        b"report 1\nconsistent\nmodel 1 1\nw 1 000\nt 0\n\
        query 1\nimpossible\ndual 0 1 1\ny -1 1\ns 8 0 7 3 0\nt 0\nend\n",
        2,
        0,
    ),
    (
        INCONSISTENT,
        b"report 1\ninconsistent\ndual 0 1 1\ny 2 6 -3\ns 5 0 4 3 0\nt 0\nend\n",
        1,
        0,
    ),
    (
        WEATHER,
        b"report 1\nconsistent\nmodel 10 3\nw 3 11\nw 2 01\nw 5 00\nt 0\nend\n",
        1,
        0,
    ),
    (
        b"psat 1; P(a) = 7/10; P(a -> b) = 9/10; query P(b); end;",
        b"report 1\nopen pivots 0\nt 1\nc 11\nend\n",
        0,
        1,
    ),
    // The combination of the lower side is 1 - 2a + (2a - 1), so it is 0 in each world.
    (
        HALF_ASKED,
        b"report 1\nconsistent\nmodel 2 2\nw 1 1\nw 1 0\nt 0\n\
        query 1\nbounds\nt 0\n\
        lower 1/2\nmodel 2 2\nw 1 1\nw 1 0\ndual 2 1 1\ny 1\ns 2 0 1 0\nt 0\n\
        upper\nopen pivots 1\nt 0\nend\n",
        2,
        1,
    ),
    // The combination is 1 + (2a + 2!a - 3), which is 0 in each world: the goal makes both true.
    (
        b"psat 2; 1 P(a) + 1 P(!a) >= 3/2; end;",
        b"report 1\ninconsistent\ndual 0 1 1\ny 1\ns 4 0 3 2 0\nt 0\nend\n",
        1,
        0,
    ),
    // The combination is 1 + (4a + 4b - 6) - (4a - 1), so it is at most 0.
    (
        SUM,
        b"report 1\ninconsistent\ndual 0 1 1\ny 1 0 -1\ns 2 0 1 0\nt 0\nend\n",
        1,
        0,
    ),
    (
        AHEAD,
        b"report 1\nconsistent\nmodel 2 2\nw 1 10\nw 1 00\nt 0\nend\n",
        1,
        0,
    ),
];

// Problems, reports, the first claim at fault and the first reason against it.
pub(crate) const REFUSED: [(&[u8], &[u8], Claim, Reason); 10] = [
    (
        EVIDENCE,
        EVIDENCE_NOT_DIVIDED,
        Claim::Lower { number: 1 },
        Reason::ValueMissed,
    ),
    (
        IMPOSSIBLE,
        b"report 1\nconsistent\nmodel 1 1\nw 1 000\nt 0\n\
        query 1\nimpossible\ndual 0 1 1\ny -1 1\ns 8 0 3 0\nt 0\nend\n",
        Claim::Query { number: 1 },
        Reason::StepRefused {
            step: 8,
            why: StepRefused::HintIdle { hint: 3 },
        },
    ),
    (
        INCONSISTENT,
        b"report 1\ninconsistent\ndual 0 1 1\ny 2 6 3\ns 5 0 4 3 0\nt 0\nend\n",
        Claim::Verdict,
        Reason::MultiplierSign { bound: 3 },
    ),
    (
        WEATHER,
        b"report 1\nconsistent\nmodel 10 2\nw 5 11\nw 5 00\nt 0\nend\n",
        Claim::Verdict,
        Reason::BoundMissed { bound: 1 },
    ),
    (
        HALF,
        b"report 1\nconsistent\nmodel 2 2\nw 2 1\nw 1 0\nt 0\nend\n",
        Claim::Verdict,
        Reason::TotalWrong,
    ),
    (
        HALF,
        b"report 1\nconsistent\nmodel 1 1\nw 1 10\nt 0\nend\n",
        Claim::Verdict,
        Reason::WrongShape,
    ),
    (
        HALF_ASKED,
        b"report 1\nconsistent\nmodel 2 2\nw 1 1\nw 1 0\nt 0\nend\n",
        Claim::Report,
        Reason::WrongShape,
    ),
    (
        SUM,
        b"report 1\ninconsistent\ndual 0 1 1\ny 1 1 -1\ns 2 0 1 0\nt 0\nend\n",
        Claim::Verdict,
        Reason::MultiplierSign { bound: 2 },
    ),
    (
        SUM,
        b"report 1\nconsistent\nmodel 1 1\nw 1 11\nt 0\nend\n",
        Claim::Verdict,
        Reason::BoundMissed { bound: 2 },
    ),
    (
        AHEAD,
        b"report 1\nconsistent\nmodel 2 2\nw 1 10\nw 1 01\nt 0\nend\n",
        Claim::Verdict,
        Reason::BoundMissed { bound: 1 },
    ),
];

// The problem of a text that isn't long.
pub(crate) fn problem_of(alloc: Global, text: &[u8]) -> Option<Problem> {
    if text.len() > 1000 {
        return None;
    }
    read_whole(alloc, text).ok()
}

// The answer of a report.
fn answer_of(alloc: Global, report: &[u8]) -> Option<Answer>
    ensures { IfSome result IsSmallAnswer }
{
    reports_are_small();
    match read_report(alloc, report) {
        Ok(answer) => Some(answer),
        Err(_) => None,
    }
}

// What is said of a report on a problem.
fn said(alloc: Global, problem: &Problem, report: &[u8]) -> Option<Result<Accepted, CheckError>> {
    let answer = answer_of(alloc, report)?;
    Some(check(alloc, problem, &answer))
}

// Whether this is said of a report on the problem of a text.
fn is_said(
    alloc: Global,
    text: &[u8],
    report: &[u8],
    expected: Result<Accepted, CheckError>,
) -> bool {
    match problem_of(alloc, text) {
        Some(problem) => said(alloc, &problem, report) == Some(expected),
        None => false,
    }
}

fn are_accepted(alloc: Global) -> bool {
    for row in &ACCEPTED {
        let accepted = Accepted {
            claims: row.2,
            unfinished: row.3,
        };
        if !is_said(alloc, row.0, row.1, Ok(accepted)) {
            return false;
        }
    }
    true
}

fn are_refused(alloc: Global) -> bool {
    for row in &REFUSED {
        let refusal = Refusal {
            claim: row.2,
            reason: row.3,
        };
        if !is_said(alloc, row.0, row.1, Err(CheckError::Refused(refusal))) {
            return false;
        }
    }
    true
}

#[test]
fn valid_claims_are_counted(rt: HostRuntime) {
    assert!(rt; are_accepted(rt.alloc()));
}

#[test]
fn the_first_wrong_claim_is_named(rt: HostRuntime) {
    assert!(rt; are_refused(rt.alloc()));
}

// Whether this is found against a side as a bound of this kind.
fn is_against(
    alloc: Global,
    problem: &Problem,
    kind: ClaimKind,
    query: &Query,
    side: &SideAnswer,
    expected: Option<Reason>,
) -> bool
    requires query { HasNodes problem.now.nodes query.now.formula query.now.given query.now.both }
    requires side { IsSmallSide side.now }
{
    match side {
        SideAnswer::Bound { value, model, dual } => {
            check_bound(alloc, problem, kind, query, value, model, dual) == Ok(expected)
        }
        SideAnswer::Open(_) => false,
    }
}

// Whether this is found against the lower side of a part.
fn is_against_lower(
    alloc: Global,
    problem: &Problem,
    kind: ClaimKind,
    query: &Query,
    part: &QueryAnswer,
    expected: Option<Reason>,
) -> bool
    requires query { HasNodes problem.now.nodes query.now.formula query.now.given query.now.both }
    requires part { IsSmallPart part.now }
{
    match part {
        QueryAnswer::Bounds { lower, .. } => {
            is_against(alloc, problem, kind, query, lower, expected)
        }
        _ => false,
    }
}

// Whether this is found against the lower side of an answer to the problem's only query.
fn is_against_answer(
    alloc: Global,
    problem: &Problem,
    answer: &Answer,
    kind: ClaimKind,
    expected: Option<Reason>,
) -> bool
    requires { IsSmallAnswer answer.now }
{
    let queries = problem.queries().as_slice();
    let parts = answer.parts.as_slice();
    if queries.len() != 1 || parts.len() != 1 {
        return false;
    }
    let part = &parts[0].answer;
    is_against_lower(alloc, problem, kind, &queries[0], part, expected)
}

// Whether this is found against the lower side of a report on a problem.
fn is_against_report(
    alloc: Global,
    problem: &Problem,
    report: &[u8],
    kind: ClaimKind,
    expected: Option<Reason>,
) -> bool {
    match answer_of(alloc, report) {
        Some(answer) => is_against_answer(alloc, problem, &answer, kind, expected),
        None => false,
    }
}

// Whether this is found against the lower side of a report of the problem with evidence, as a bound of this kind.
fn is_found(alloc: Global, report: &[u8], kind: ClaimKind, expected: Option<Reason>) -> bool {
    match problem_of(alloc, EVIDENCE) {
        Some(problem) => is_against_report(alloc, &problem, report, kind, expected),
        None => false,
    }
}

// As an upper bound the dual claims another combination, and the first step's last hint does nothing for it.
const IDLE: Reason = Reason::StepRefused {
    step: 8,
    why: StepRefused::HintIdle { hint: 7 },
};

fn are_judged(alloc: Global) -> bool {
    is_found(alloc, EVIDENCE_DIVIDED, ClaimKind::Lower, None)
        && is_found(alloc, EVIDENCE_DIVIDED, ClaimKind::Upper, Some(IDLE))
        && is_found(
            alloc,
            EVIDENCE_NOT_DIVIDED,
            ClaimKind::Lower,
            Some(Reason::ValueMissed),
        )
}

#[test]
fn bounds_are_judged(rt: HostRuntime) {
    assert!(rt; are_judged(rt.alloc()));
}
