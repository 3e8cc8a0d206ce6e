//! `make`: the texts of chains and their summaries.
use crate::checking::{USAGE, ended};
use ps_commands::Status;
use ps_io::{MemSink, NoMemory};
use std::alloc::Global;
use std::test::*;

const ONE: &str = "psat 1;\nP(x0) >= 9/10;\nP(x0 -> x1) >= 99/100;\nquery P(x1);\nend;\n\
                   # consistent; query 1: 89/100 to 1/1; check accepted: claims 3, open 0\n";

// Words, the whole text or its end, and the status. The chain of 40 has more worlds than can be
// listed.
const MADE: [(&[&str], &str, Status); 4] = [
    (&["make", "1"], ONE, Status::Done),
    (
        &["make", "1", "--conflicts", "20000", "--pivots", "10000"],
        ONE,
        Status::Done,
    ),
    (
        &["make", "3"],
        "\nend;\n# consistent; query 1: 87/100 to 1/1; check accepted: claims 3, open 0\n",
        Status::Done,
    ),
    (
        &["make", "40"],
        "\nend;\n# consistent; query 1: 1/2 to 1/1; check accepted: claims 3, open 0\n",
        Status::Done,
    ),
];

// The ends of the text where no pivot is allowed. At first all four worlds are equally good, so each
// of them may be the one that enters.
const OPEN: [&str; 4] = [
    "\nend;\n# open; check accepted: claims 0, open 1\n# report 1\n# open pivots 0\n# t 1\n# c 00\n# end\n",
    "\nend;\n# open; check accepted: claims 0, open 1\n# report 1\n# open pivots 0\n# t 1\n# c 01\n# end\n",
    "\nend;\n# open; check accepted: claims 0, open 1\n# report 1\n# open pivots 0\n# t 1\n# c 10\n# end\n",
    "\nend;\n# open; check accepted: claims 0, open 1\n# report 1\n# open pivots 0\n# t 1\n# c 11\n# end\n",
];

// Words of no command that begin with `make`.
const OTHER_WORDS: [&[&str]; 8] = [
    &["make"],
    &["make", "0"],
    &["make", "91"],
    &["make", "01"],
    &["make", "1", "--pivots", "enough"],
    &["make", "1", "--bytes", "1"],
    &["make", "1", "--pivots", "1", "--pivots", "1"],
    &["make", "--pivots", "1"],
];

// A run that reads nothing: its first read would fail.
fn made(alloc: Global, words: &[&str], writes: &[u64]) -> Result<(Status, MemSink), NoMemory> {
    ended(alloc, words, b"psat 1;", &[1], writes)
}

// Whether a run writes a text that ends so, with this status.
fn is_made(alloc: Global, words: &[&str], text: &str, due: Status) -> bool {
    match made(alloc, words, &[]) {
        Ok((status, sink)) => status == due && sink.bytes().ends_with(text.as_bytes()),
        Err(_) => false,
    }
}

// Whether one world has entered, and the rest is open.
fn is_open_at_first(alloc: Global) -> bool {
    let words = ["make", "1", "--pivots", "0"];
    let mut open = false;
    for text in OPEN {
        open = open || is_made(alloc, &words, text, Status::Unfinished);
    }
    open
}

fn all_are_made(alloc: Global) -> bool {
    let mut right = is_open_at_first(alloc);
    for (words, text, due) in MADE {
        right = right && is_made(alloc, words, text, due);
    }
    for words in OTHER_WORDS {
        right = right && is_made(alloc, words, USAGE, Status::Usage);
    }
    right
}

// Whether a run with this failing write ends with a write fault, and has written so many bytes.
fn is_cut(alloc: Global, words: &[&str], call: u64, count: usize) -> bool {
    match made(alloc, words, &[call]) {
        Ok((status, sink)) => status == Status::WriteFault && sink.bytes().len() == count,
        Err(_) => false,
    }
}

// The text and the summary go in pieces of 8 bytes, and then each line of the report.
fn faults_are_told(alloc: Global) -> bool {
    is_cut(alloc, &["make", "1"], 2, 8) && is_cut(alloc, &["make", "1", "--pivots", "0"], 16, 113)
}

#[test]
fn chains_get_their_summaries(rt: HostRuntime) {
    let alloc = rt.alloc();
    assert!(rt; all_are_made(alloc) && faults_are_told(alloc));
}
