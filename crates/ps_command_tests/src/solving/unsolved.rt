//! Inputs that get no report.
use super::SOLVE;
use crate::checking::{USAGE, answers};
use ps_commands::Status;
use ps_io::NoMemory;
use std::alloc::Global;
use std::test::*;

// Whole inputs of `solve` that are no problem, and the reason.
const UNSOLVED: [(&str, &str); 4] = [
    (
        "psat 1;\nP(a) = 3/2;\nend;",
        "unreadable: number out of range at 2:8\n",
    ),
    ("psat 1;\nP(a) = 1/2;\n", "unreadable: end missing at 3:1\n"),
    (
        "psat 1;\nP(a) = 1/2;\nend;\nx",
        "unreadable: more after end at 4:1\n",
    ),
    ("psat 3;\nend;", "unreadable: version unknown at 1:6\n"),
];

// Words of no command: of `solve` with limits that are wrong, and of `check` with those of `solve`.
const OTHER_WORDS: [&[&str]; 12] = [
    &["solve", "--pivots"],
    &["solve", "--pivots", "01"],
    &["solve", "--pivots", "1000001"],
    &["solve", "--conflicts", "1099511627777"],
    &["solve", "--pivots", "1", "--pivots", "1"],
    &["solve", "--bytes", "1"],
    &["solve", "--pivots", "enough", "--pivots", "3"],
    &["solve", "--pivots", "3", "--pivots", "enough"],
    &["solve", "--conflicts", "enough"],
    &["check", "--bytes", "enough"],
    &["check", "--pivots", "enough"],
    &["check", "--pivots", "1"],
];

// A problem with a bound too many.
fn crowded(alloc: Global) -> Result<String, NoMemory> {
    let mut text = String::from_str(alloc, "psat 1;\n")?;
    for _ in 0..101u64 {
        text.push_str("P(a) >= 0;\n")?;
    }
    text.push_str("end;\n")?;
    Ok(text)
}

// Whether both commands refuse that problem at its last bound.
fn is_too_crowded(alloc: Global) -> bool {
    let line = "unreadable: too many bounds at 102:1\n";
    match crowded(alloc) {
        Ok(input) => {
            answers(alloc, SOLVE, input.as_str(), line, Status::Unreadable)
                && answers(alloc, &["check"], input.as_str(), line, Status::Unreadable)
        }
        Err(_) => false,
    }
}

fn all_are_unsolved(alloc: Global) -> bool {
    let mut right = is_too_crowded(alloc);
    for (input, line) in UNSOLVED {
        right = right && answers(alloc, SOLVE, input, line, Status::Unreadable);
    }
    for words in OTHER_WORDS {
        right = right && answers(alloc, words, "psat 1; end;", USAGE, Status::Usage);
    }
    right
}

#[test]
fn what_is_no_problem_or_command_is_refused(rt: HostRuntime) -> Result<(), Fail> {
    let alloc = rt.alloc();
    assert!(rt; all_are_unsolved(alloc));
    Ok(())
}
