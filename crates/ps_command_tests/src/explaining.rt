//! `explain`: each input gets its explanation.
use crate::checking::{USAGE, answers, ended};
use ps_commands::Status;
use ps_io::NoMemory;
use std::alloc::Global;
use std::test::*;

const EXPLAIN: &[&str] = &["explain"];

// Words, problems without their frame, and parts of their explanations.
const EXPLAINED: [(&[&str], &str, &str, Status); 10] = [
    (
        EXPLAIN,
        "P(a) = 1/3; P(a) = 2/3; P(b) = 1/2;",
        "explanation 1\ncore 2 1 2\ndual 0 1 1\ny -1 1 0\ns 2 0 1 0\nwithout 1\nmodel ",
        Status::Inconsistent,
    ),
    (
        EXPLAIN,
        "P(a) = 1/3; P(a) = 2/3; P(b) = 1/2;",
        "\nwithout 2\nmodel ",
        Status::Inconsistent,
    ),
    (
        EXPLAIN,
        "P(a) = 7/10; P(a -> b) = 9/10; query P(b);",
        "explanation 1\nconsistent\nmodel ",
        Status::Done,
    ),
    (
        EXPLAIN,
        "P(c) = 1/2; P(a) >= 3/4; P(d) <= 1/2; P(a -> b) = 1; P(b) <= 1/2;",
        "explanation 1\ncore 3 2 4 5\n",
        Status::Inconsistent,
    ),
    (
        EXPLAIN,
        "P(b) = 1/2; P(a & !a) >= 1/10;",
        "explanation 1\ncore 1 2\ndual ",
        Status::Inconsistent,
    ),
    (
        EXPLAIN,
        "P(b) = 1/2; P(a & !a) >= 1/10;",
        "\nwithout 2\nmodel 1 1\nw 1 ",
        Status::Inconsistent,
    ),
    (
        EXPLAIN,
        "",
        "explanation 1\nconsistent\nmodel 1 1\nw 1 -\nend\n",
        Status::Done,
    ),
    (
        &["explain", "--pivots", "enough"],
        "P(a) in [3/4, 1/4];",
        "explanation 1\ncore 1 1\n",
        Status::Inconsistent,
    ),
    (
        &["explain", "--conflicts", "4", "--pivots", "enough"],
        "P(a) = 1/3; P(a) = 2/3; P(b) = 1/2;",
        "\nend\n",
        Status::Inconsistent,
    ),
    (
        EXPLAIN,
        WIDE,
        "explanation 1\nopen wide ",
        Status::Unfinished,
    ),
];

// A distribution that meets these has a total that is a multiple of about 10^30.
const WIDE: &str = "P(a & b & c) = 1/1000000; P(a & b & !c) = 1/999999; P(a & !b & c) = 1/999997; \
                    P(a & !b & !c) = 1/999991; P(!a & b & c) = 1/999983;";

// Whole inputs that are no problem, and the reason.
const UNEXPLAINED: [(&str, &str); 2] = [
    (
        "psat 1;\nP(a) = 3/2;\nend;",
        "unreadable: number out of range at 2:8\n",
    ),
    (
        "psat 1;\nP(a) = 1/2;\nend;\nx",
        "unreadable: more after end at 4:1\n",
    ),
];

// Words of no command that begin with `explain`.
const OTHER_WORDS: [&[&str]; 5] = [
    &["explain", "--bytes", "1"],
    &["explain", "--pivots"],
    &["explain", "--pivots", "1000001"],
    &["explain", "--conflicts", "enough"],
    &["explain", "1"],
];

// Whether the explanation has this part, with this status.
fn is_explained(
    alloc: Global,
    words: &[&str],
    problem: &str,
    part: &str,
    due: Status,
) -> Result<bool, NoMemory> {
    let input = format!(in alloc; "psat 1; {problem} end;")?;
    let (status, sink) = ended(alloc, words, input.as_bytes(), &[], &[])?;
    let text = String::from_utf8_lossy(alloc, sink.bytes())?;
    Ok(status == due && text.as_str().contains(part))
}

fn all_are_explained(alloc: Global) -> bool {
    let mut right = true;
    for (words, problem, part, due) in EXPLAINED {
        right = right && is_explained(alloc, words, problem, part, due).unwrap_or(false);
    }
    right
}

fn all_are_unexplained(alloc: Global) -> bool {
    let mut right = true;
    for (input, line) in UNEXPLAINED {
        right = right && answers(alloc, EXPLAIN, input, line, Status::Unreadable);
    }
    for words in OTHER_WORDS {
        right = right && answers(alloc, words, "psat 1; end;", USAGE, Status::Usage);
    }
    right
}

// Whether a run where these calls fail ends with the status, and has written this.
fn is_cut(alloc: Global, reads: &[u64], writes: &[u64], due: Status, written: &str) -> bool {
    let input = "psat 1; P(a) = 1/3; P(a) = 2/3; end;";
    match ended(alloc, EXPLAIN, input.as_bytes(), reads, writes) {
        Ok((status, sink)) => status == due && sink.bytes() == written.as_bytes(),
        Err(_) => false,
    }
}

fn faults_are_told(alloc: Global) -> bool {
    is_cut(alloc, &[], &[2], Status::WriteFault, "explanat")
        && is_cut(alloc, &[1], &[], Status::ReadFault, "")
}

#[test]
fn problems_get_their_explanations(rt: HostRuntime) {
    let alloc = rt.alloc();
    assert!(rt; all_are_explained(alloc) && all_are_unexplained(alloc) && faults_are_told(alloc));
}
