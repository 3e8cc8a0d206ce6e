//! `upgrade`: each problem gets its canonical text as one of version 2.
use crate::checking::{USAGE, answers, ended};
use ps_commands::Status;
use std::alloc::Global;
use std::test::*;

const UPGRADE: &[&str] = &["upgrade"];

// Problems and their texts, by hand from the definition of canonical texts.
const UPGRADED: [(&str, &str); 6] = [
    ("psat 1; end;", "psat 2;\nend;\n"),
    (
        "psat 1;P((a)&b->c->!(a|b))=0.50;end; # so",
        "psat 2;\nP(a & b -> c -> !(a | b)) = 1/2;\nend;\n",
    ),
    (
        "psat 1; query P(b); P(!a given b) in [0.25, 2/4]; end;",
        "psat 2;\nP(!a given b) in [1/4, 1/2];\nquery P(b);\nend;\n",
    ),
    (
        "psat 2; -P(a)+2P(b)<=-0.5; end;",
        "psat 2;\n- 1 P(a) + 2 P(b) <= -1/2;\nend;\n",
    ),
    (
        "psat 2; P(a) = 1; P(b) - 0.50 P((a | b)) in [-1/2, -0]; end;",
        "psat 2;\nP(a) = 1;\n1 P(b) - 1/2 P(a | b) in [-1/2, 0];\nend;\n",
    ),
    (
        "psat 2;\n1 P(a) >= 1;\nquery P(a given !a);\nend;\n",
        "psat 2;\n1 P(a) >= 1;\nquery P(a given !a);\nend;\n",
    ),
];

// Whole inputs that are no problem, and the reason.
const UNREADABLE: [(&str, &str); 4] = [
    ("", "unreadable: end missing at 1:1\n"),
    (
        "psat 1;\nP(a) = 3/2;\nend;",
        "unreadable: number out of range at 2:8\n",
    ),
    (
        "psat 1;\nP(a) = 1/2;\nend;\nx",
        "unreadable: more after end at 4:1\n",
    ),
    (
        "psat 1;\nP(a) + P(b) = 1;\nend;",
        "unreadable: bad byte at 2:6\n",
    ),
];

// Words of no command that begin with `upgrade`.
const OTHER_WORDS: [&[&str]; 3] = [
    &["upgrade", "upgrade"],
    &["upgrade", "--bytes", "1"],
    &["upgrade", "--pivots", "1"],
];

fn all_are_upgraded(alloc: Global) -> bool {
    UPGRADED.iter().all(|(input, text)| answers(alloc, UPGRADE, input, text, Status::Done))
}

fn all_are_unreadable(alloc: Global) -> bool {
    UNREADABLE.iter().all(|(input, line)| answers(alloc, UPGRADE, input, line, Status::Unreadable))
}

fn get_usage(alloc: Global) -> bool {
    OTHER_WORDS.iter().all(|words| answers(alloc, words, "psat 1; end;", USAGE, Status::Usage))
}

// Whether a run where these calls fail ends with the status, and has written this.
fn is_cut(alloc: Global, reads: &[u64], writes: &[u64], due: Status, written: &str) -> bool {
    match ended(alloc, UPGRADE, b"psat 1; P(a) = 1/3; end;", reads, writes) {
        Ok((status, sink)) => status == due && sink.bytes() == written.as_bytes(),
        Err(_) => false,
    }
}

#[test]
fn problems_get_their_texts(rt: HostRuntime) {
    let alloc = rt.alloc();
    assert!(rt; all_are_upgraded(alloc) && all_are_unreadable(alloc) && get_usage(alloc));
}

#[test]
fn faults_of_an_upgrade_are_told(rt: HostRuntime) {
    let alloc = rt.alloc();
    // The text goes in pieces of 8 bytes.
    assert!(rt;
        is_cut(alloc, &[], &[2], Status::WriteFault, "psat 2;\n")
            && is_cut(alloc, &[2], &[], Status::ReadFault, "")
    );
}
