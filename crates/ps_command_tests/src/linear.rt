//! Problems with linear sentences: reports and judgements worked out by hand.
use crate::checking::{answers, ended};
use ps_commands::Status;
use ps_io::NoMemory;
use std::alloc::Global;
use std::test::*;

// Problems without their frame, parts of their reports, and the lines of `check` on the whole ones.
const SOLVED: [(&str, &str, Status, &str); 8] = [
    (
        "P(a) - P(b) >= 1/2; query P(b);",
        "\nlower 0/1\n",
        Status::Done,
        "accepted: claims 3, open 0\n",
    ),
    (
        "P(a) - P(b) >= 1/2; query P(b);",
        "\nupper 1/2\n",
        Status::Done,
        "accepted: claims 3, open 0\n",
    ),
    (
        "2 P(a) - 1/3 P(b) >= 1/2; query P(a);",
        "\nlower 1/4\n",
        Status::Done,
        "accepted: claims 3, open 0\n",
    ),
    (
        "2 P(a) - 1/3 P(b) >= 1/2; query P(a);",
        "\nupper 1/1\n",
        Status::Done,
        "accepted: claims 3, open 0\n",
    ),
    (
        "1 P(a) + 1 P(!a) >= 3/2;",
        "\ninconsistent\n",
        Status::Inconsistent,
        "accepted: claims 1, open 0\n",
    ),
    (
        "1000000 P(a) + 1000000 P(b) >= 0;",
        "\nconsistent\n",
        Status::Done,
        "accepted: claims 1, open 0\n",
    ),
    // Two of three ring on average, and never all three.
    (
        "P(a) + P(b) + P(c) = 2; P(a & b & c) = 0; query P(a | b | c);",
        "\nlower 1/1\n",
        Status::Done,
        "accepted: claims 3, open 0\n",
    ),
    // A ranking: what is least of three that exclude each other has a third at most.
    (
        "P(a & b | a & c | b & c) = 0; P(a) - P(b) >= 0; P(b) - P(c) >= 0; query P(c);",
        "\nupper 1/3\n",
        Status::Done,
        "accepted: claims 3, open 0\n",
    ),
];

// Problems with reports, and their lines.
const JUDGED: [(&str, &str, Status); 9] = [
    (
        "psat 2; P(a) - P(b) >= 1/2; end;\nreport 1\nconsistent\nmodel 2 2\nw 1 10\nw 1 00\nt 0\nend\n",
        "accepted: claims 1, open 0\n",
        Status::Done,
    ),
    (
        "psat 2; P(a) - P(b) >= 1/2; end;\nreport 1\nconsistent\nmodel 2 2\nw 1 10\nw 1 01\nt 0\nend\n",
        "refused verdict bound-missed 1\n",
        Status::Refused,
    ),
    // The right side counts as often as all worlds weigh.
    (
        "psat 2; P(a) + P(b) in [1/2, 1]; end;\nreport 1\nconsistent\nmodel 3 2\nw 1 10\nw 2 00\nt 0\nend\n",
        "refused verdict bound-missed 1\n",
        Status::Refused,
    ),
    (
        "psat 2; P(a) + P(b) in [1/2, 1]; end;\nreport 1\nconsistent\nmodel 3 2\nw 2 11\nw 1 00\nt 0\nend\n",
        "refused verdict bound-missed 2\n",
        Status::Refused,
    ),
    (
        "psat 2; P(a) + P(b) in [1/2, 1]; end;\nreport 1\nconsistent\nmodel 2 2\nw 1 11\nw 1 00\nt 0\nend\n",
        "accepted: claims 1, open 0\n",
        Status::Done,
    ),
    // Over 2: twice a, twice its negation, less 3, is -1 in each world.
    (
        "psat 2; 1 P(a) + 1 P(!a) >= 3/2; end;\nreport 1\ninconsistent\ndual 0 1 1\ny 1\ns 4 0 3 2 0\nt 0\nend\n",
        "accepted: claims 1, open 0\n",
        Status::Done,
    ),
    (
        "psat 2; 1 P(a) + 1 P(!a) >= 3/2; end;\nreport 1\ninconsistent\ndual 0 1 1\ny -1\ns 4 0 3 2 0\nt 0\nend\n",
        "refused verdict multiplier-sign 1\n",
        Status::Refused,
    ),
    (
        "psat 2;\n1000000 P(a) + 1000000 P(b) >= 1;\nend;\n",
        "unreadable: linear too large at 2:1\n",
        Status::Unreadable,
    ),
    (
        "psat 2;\n1/1000000 P(a) + 1/999999 P(b) >= 0;\nend;\n",
        "unreadable: linear too large at 2:1\n",
        Status::Unreadable,
    ),
];

// What `solve` writes, its status, and the problem with it behind.
fn solved(alloc: Global, problem: &str) -> Result<(Status, String, String), NoMemory> {
    let input = format!(in alloc; "psat 2; {problem} end;")?;
    let (status, sink) = ended(alloc, &["solve"], input.as_bytes(), &[], &[])?;
    let report = String::from_utf8_lossy(alloc, sink.bytes())?;
    let both = format!(in alloc; "{input}\n{report}")?;
    Ok((status, report, both))
}

// Whether the report has this part, with this status, and is accepted with this line.
fn is_solved(alloc: Global, problem: &str, part: &str, due: Status, line: &str) -> bool {
    match solved(alloc, problem) {
        Ok((status, report, both)) => {
            status == due
                && report.as_str().contains(part)
                && answers(alloc, &["check"], both.as_str(), line, Status::Done)
        }
        Err(_) => false,
    }
}

fn all_are_solved(alloc: Global) -> bool {
    let mut right = true;
    for (problem, part, due, line) in SOLVED {
        right = right && is_solved(alloc, problem, part, due, line);
    }
    right
}

fn all_are_judged(alloc: Global) -> bool {
    let mut right = true;
    for (input, line, due) in JUDGED {
        right = right && answers(alloc, &["check"], input, line, due);
    }
    right
}

#[test]
fn linear_problems_get_their_reports(rt: HostRuntime) {
    assert!(rt; all_are_solved(rt.alloc()));
}

#[test]
fn reports_on_linear_problems_are_judged(rt: HostRuntime) {
    assert!(rt; all_are_judged(rt.alloc()));
}
