//! `maxsat` and `check-maxsat`: clauses get an optimum, and an answer its line.
use crate::checking::{USAGE, answers};
use ps_commands::Status;
use std::alloc::Global;
use std::test::*;

const MAXSAT: &[&str] = &["maxsat"];

const CHECK: &[&str] = &["check-maxsat"];

// Clauses with one answer, worked out by hand.
const ANSWERED: [(&str, &str, Status); 2] = [
    (
        "",
        "maxsat 1\noptimum 0\nv -\nlog 1\ns 2 0 1 0\nend\n",
        Status::Done,
    ),
    (
        "p wcnf 1 1 2",
        "unreadable: bad line at 1\n",
        Status::Unreadable,
    ),
];

// Whole inputs of `check-maxsat`, their lines and statuses.
const JUDGED: [(&str, &str, Status); 8] = [
    (
        "\nmaxsat 1\noptimum 0\nv -\nlog 1\ns 2 0 1 0\nend\n",
        "accepted: claims 1, open 0\n",
        Status::Done,
    ),
    (
        "h 1 0\nmaxsat 1\noptimum 0\nv 0\nlog 0\nend\n",
        "refused maxsat hard-missed 1\n",
        Status::Refused,
    ),
    (
        "1 1 0\nmaxsat 1\noptimum 1\nv 1\nlog 0\nend\n",
        "refused maxsat cost-wrong\n",
        Status::Refused,
    ),
    (
        "1 1 0\nmaxsat 1\noptimum 0\nv 11\nlog 0\nend\n",
        "refused maxsat wrong-shape\n",
        Status::Refused,
    ),
    (
        "1 1 0\nmaxsat 1\noptimum 0\nv 1\nlog 0\nend\n",
        "refused maxsat not-refuted\n",
        Status::Refused,
    ),
    (
        "h 1 0\nmaxsat 1\nunsatisfiable\nlog 1\ns 3 0 1 0\nend\n",
        "refused maxsat step 3 no-conflict\n",
        Status::Refused,
    ),
    (
        "h 1 0\n",
        "refused report line 1 truncated\n",
        Status::Refused,
    ),
    (
        "h 1\nmaxsat 1\n",
        "unreadable: bad line at 1\n",
        Status::Unreadable,
    ),
];

// Words of no command that begin with the name of one of the two.
const OTHER_WORDS: [&[&str]; 4] = [
    &["maxsat", "--bytes", "1"],
    &["maxsat", "--conflicts", "1", "--conflicts", "1"],
    &["check-maxsat", "--conflicts", "1"],
    &["check-maxsat", "1"],
];

#[test]
fn clauses_get_their_answers(rt: HostRuntime) {
    let alloc = rt.alloc();
    assert!(rt;
        ANSWERED.iter().all(|(input, text, due)| answers(alloc, MAXSAT, input, text, *due))
    );
}

#[test]
fn answers_get_their_lines(rt: HostRuntime) {
    let alloc = rt.alloc();
    assert!(rt; JUDGED.iter().all(|(input, text, due)| answers(alloc, CHECK, input, text, *due)));
}

#[test]
fn other_words_get_the_usage(rt: HostRuntime) {
    let alloc = rt.alloc();
    assert!(rt;
        OTHER_WORDS
            .iter()
            .all(|words| answers(alloc, words, "", USAGE, Status::Usage))
    );
}
