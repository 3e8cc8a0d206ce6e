//! `solve`: each input gets its report, which `check` accepts.
mod enough;
mod unsolved;

use crate::checking::{answers, ended};
use ps_commands::Status;
use ps_io::NoMemory;
use std::alloc::Global;
use std::test::*;

const SOLVE: &[&str] = &["solve"];

const NO_PIVOTS: &[&str] = &["solve", "--pivots", "0"];

const ENOUGH: &[&str] = &["solve", "--pivots", "enough"];

const NO_CONFLICTS: &[&str] = &["solve", "--conflicts", "0"];

// Words, problems without their frame, reports or parts of them, and the lines of `check` on the
// whole reports.
const SOLVED: [(&[&str], &str, &str, Status, &str); 30] = [
    (
        SOLVE,
        "P(a) = 7/10; P(a -> b) = 9/10; query P(b);",
        "\nconsistent\n",
        Status::Done,
        "accepted: claims 3, open 0\n",
    ),
    (
        SOLVE,
        "P(a) = 7/10; P(a -> b) = 9/10; query P(b);",
        "\nlower 3/5\n",
        Status::Done,
        "accepted: claims 3, open 0\n",
    ),
    (
        SOLVE,
        "P(a) = 7/10; P(a -> b) = 9/10; query P(b);",
        "\nupper 9/10\n",
        Status::Done,
        "accepted: claims 3, open 0\n",
    ),
    (
        SOLVE,
        "",
        "report 1\nconsistent\nmodel 1 1\nw 1 -\nt 2\nc -\np w1 0\nend\n",
        Status::Done,
        "accepted: claims 1, open 0\n",
    ),
    (
        SOLVE,
        "query P(a);",
        "\nlower 0/1\nmodel 1 1\nw 1 0\ndual 1 0 1\ny\ns 2 0 1 0\n",
        Status::Done,
        "accepted: claims 3, open 0\n",
    ),
    (
        SOLVE,
        "query P(a);",
        "\nupper 1/1\nmodel 1 1\nw 1 1\ndual 1 1 1\ny\ns 2 0 1 0\n",
        Status::Done,
        "accepted: claims 3, open 0\n",
    ),
    (
        SOLVE,
        "P(a) = 1/3; P(a) = 2/3;",
        "report 1\ninconsistent\ndual 0 1 1\ny -1 1\ns 2 0 1 0\nt 2\nc 1\np w1 1\nend\n",
        Status::Inconsistent,
        "accepted: claims 1, open 0\n",
    ),
    (
        SOLVE,
        "P(a & !a) >= 1/1000000;",
        "\ninconsistent\n",
        Status::Inconsistent,
        "accepted: claims 1, open 0\n",
    ),
    (
        SOLVE,
        "P(a) = 0.6; P(b) = 0.7; query P(a & b);",
        "\nlower 3/10\n",
        Status::Done,
        "accepted: claims 3, open 0\n",
    ),
    (
        SOLVE,
        "P(a) = 0.6; P(b) = 0.7; query P(a & b);",
        "\nupper 3/5\n",
        Status::Done,
        "accepted: claims 3, open 0\n",
    ),
    (
        SOLVE,
        "P(b given a) = 4/5; P(a) = 1/2; query P(b);",
        "\nlower 2/5\n",
        Status::Done,
        "accepted: claims 3, open 0\n",
    ),
    (
        SOLVE,
        "P(b given a) = 4/5; P(a) = 1/2; query P(b);",
        "\nupper 9/10\n",
        Status::Done,
        "accepted: claims 3, open 0\n",
    ),
    (
        SOLVE,
        "P(b given a) = 4/5; P(a) = 1/2; query P(a given b);",
        "\nlower 4/9\n",
        Status::Done,
        "accepted: claims 3, open 0\n",
    ),
    (
        SOLVE,
        "P(b given a) = 4/5; P(a) = 1/2; query P(a given b);",
        "\nupper 1/1\n",
        Status::Done,
        "accepted: claims 3, open 0\n",
    ),
    (
        SOLVE,
        "P(b) = 0; query P(a given b);",
        "\nconsistent\n",
        Status::Done,
        "accepted: claims 2, open 0\n",
    ),
    (
        SOLVE,
        "P(b) = 0; query P(a given b);",
        "\nquery 1\nimpossible\n",
        Status::Done,
        "accepted: claims 2, open 0\n",
    ),
    (
        SOLVE,
        "P(a given b) = 1/2; P(b) = 0;",
        "\nconsistent\n",
        Status::Done,
        "accepted: claims 1, open 0\n",
    ),
    (
        SOLVE,
        "P(a) in [3/4, 1/4];",
        "\ninconsistent\n",
        Status::Inconsistent,
        "accepted: claims 1, open 0\n",
    ),
    (
        SOLVE,
        BIRDS,
        "\nlower 179/180\n",
        Status::Done,
        "accepted: claims 3, open 0\n",
    ),
    (
        SOLVE,
        BIRDS,
        "\nupper 179/180\n",
        Status::Done,
        "accepted: claims 3, open 0\n",
    ),
    (
        NO_PIVOTS,
        "P(a) = 7/10; P(a -> b) = 9/10; query P(b);",
        "report 1\nopen pivots 0\nt 1\nc 11\nend\n",
        Status::Unfinished,
        "accepted: claims 0, open 1\n",
    ),
    (
        NO_PIVOTS,
        "P(a) = 7/10; P(a -> b) = 9/10;",
        "report 1\nopen pivots 0\nt 1\nc 11\nend\n",
        Status::Unfinished,
        "accepted: claims 0, open 1\n",
    ),
    (
        SOLVE,
        WIDE,
        "\nopen wide ",
        Status::Unfinished,
        "accepted: claims 0, open 1\n",
    ),
    (
        ENOUGH,
        WIDE,
        "\nopen wide ",
        Status::Unfinished,
        "accepted: claims 0, open 1\n",
    ),
    (
        &["solve", "--conflicts", "0", "--pivots", "enough"],
        FOUR,
        "report 1\nopen conflicts 0\ng 1 1 11 0\nt 2\nc ",
        Status::Unfinished,
        "accepted: claims 0, open 1\n",
    ),
    (
        SOLVE,
        "P(a) = 1/2; query P(true given a);",
        "\nlower 1/1\n",
        Status::Done,
        "accepted: claims 3, open 0\n",
    ),
    (
        SOLVE,
        "P(a) = 1/2; query P(true given a);",
        "\nupper 1/1\n",
        Status::Done,
        "accepted: claims 3, open 0\n",
    ),
    (
        SOLVE,
        "query P(a2345678901234567890123456789012);",
        "\nlower 0/1\n",
        Status::Done,
        "accepted: claims 3, open 0\n",
    ),
    (
        NO_PIVOTS,
        "P(a) = 1/2; P(b) = 1/4;",
        "report 1\nopen pivots 0\nt 1\nc 11\nend\n",
        Status::Unfinished,
        "accepted: claims 0, open 1\n",
    ),
    (
        &["solve", "--conflicts", "4", "--pivots", "0"],
        "P(a) = 1/2; P(b) = 1/4;",
        "report 1\nopen pivots 0\nt 1\nc 11\nend\n",
        Status::Unfinished,
        "accepted: claims 0, open 1\n",
    ),
];

// The same at limits of conflicts: hints alone refute the first problem, at every limit, and a search
// over the 11 nodes of the second learns fewer than 2^11 clauses.
const LIMITED: [(&[&str], &str, &str, Status, &str); 5] = [
    (
        NO_CONFLICTS,
        "P(a) = 1/3; P(a) = 2/3;",
        "report 1\ninconsistent\ndual 0 1 1\ny -1 1\ns 2 0 1 0\nt 2\nc 1\np w1 1\nend\n",
        Status::Inconsistent,
        "accepted: claims 1, open 0\n",
    ),
    (
        NO_CONFLICTS,
        FOUR,
        "report 1\nopen conflicts 0\ng 1 1 11 0\nt 2\nc ",
        Status::Unfinished,
        "accepted: claims 0, open 1\n",
    ),
    (
        NO_CONFLICTS,
        FOUR,
        "\np w1 1\nend\n",
        Status::Unfinished,
        "accepted: claims 0, open 1\n",
    ),
    (
        &["solve", "--conflicts", "1"],
        FOUR,
        "\ninconsistent\n",
        Status::Inconsistent,
        "accepted: claims 1, open 0\n",
    ),
    (
        &["solve", "--conflicts", "2048"],
        FOUR,
        "\ninconsistent\n",
        Status::Inconsistent,
        "accepted: claims 1, open 0\n",
    ),
];

const BIRDS: &str = "P(bird) = 1/5; P(fly given bird) = 9/10; P(penguin -> bird) = 1; \
                     P(fly given penguin) = 1/20; P(penguin given bird) = 1/10; \
                     query P(fly given bird & !penguin);";

const WIDE: &str = "P(a & b & c) = 1/1000000; P(a & b & !c) = 1/999999; P(a & !b & c) = 1/999997; \
                    P(a & !b & !c) = 1/999991; P(!a & b & c) = 1/999983;";

const FOUR: &str = "P((a | b) & (a | !b) & (!a | b) & (!a | !b)) >= 1;";

// What a run writes, and its status.
fn solved(
    alloc: Global,
    words: &[&str],
    problem: &str,
) -> Result<(Status, String, String), NoMemory> {
    let input = format!(in alloc; "psat 1; {problem} end;")?;
    let (status, sink) = ended(alloc, words, input.as_bytes(), &[], &[])?;
    let report = String::from_utf8_lossy(alloc, sink.bytes())?;
    let both = format!(in alloc; "{input} # Solved.\n{report}")?;
    Ok((status, report, both))
}

// Whether the report has this part, with this status, and is accepted with this line.
fn is_solved(
    alloc: Global,
    words: &[&str],
    problem: &str,
    part: &str,
    due: Status,
    line: &str,
) -> bool {
    match solved(alloc, words, problem) {
        Ok((status, report, both)) => {
            status == due
                && report.as_str().contains(part)
                && answers(alloc, &["check"], both.as_str(), line, Status::Done)
        }
        Err(_) => false,
    }
}

fn all_are_solved(alloc: Global) -> bool {
    let mut right = true;
    for (words, problem, part, due, line) in SOLVED {
        right = right && is_solved(alloc, words, problem, part, due, line);
    }
    right
}

fn all_limited_are_solved(alloc: Global) -> bool {
    let mut right = true;
    for (words, problem, part, due, line) in LIMITED {
        right = right && is_solved(alloc, words, problem, part, due, line);
    }
    right
}

#[test]
fn problems_get_their_reports(rt: HostRuntime) -> Result<(), Fail> {
    let alloc = rt.alloc();
    assert!(rt; all_are_solved(alloc));
    Ok(())
}

#[test]
fn limits_of_conflicts_are_reached_honestly(rt: HostRuntime) -> Result<(), Fail> {
    assert!(rt; all_limited_are_solved(rt.alloc()));
    Ok(())
}
