//! Inputs, and what is to be shown of their answers where time is over early.
use super::rows::{CLASH, PROBLEM, Row, WARNING};
use ps_ask::{Status, Style};

// In each distribution that meets the sentences the first query is 1/6, and the condition of the
// second has no weight.
const SETTLED: &[u8] = b"psat 1; P(a) = 1/3; P(b given a) = 1/2;
query P(a & b); query P(b given a & !a); end;";

const SETTLED_OBJECT: &str = concat!(
    "{\"file\":\"f\",\"verdict\":\"consistent\",\"why\":null,\"queries\":[",
    "{\"query\":\"P(a & b)\",\"status\":\"open\",",
    "\"why\":\"not finished within the time limit; allow more by --time-limit\",",
    "\"lower\":{\"exact\":null,\"decimal\":null,",
    "\"why\":\"not finished within the time limit; allow more by --time-limit\",",
    "\"proved\":\"0\",\"reached\":{\"exact\":\"1/6\",\"decimal\":\"0.167\"}},",
    "\"upper\":{\"exact\":null,\"decimal\":null,",
    "\"why\":\"not finished within the time limit; allow more by --time-limit\",",
    "\"proved\":\"1\",\"reached\":{\"exact\":\"1/6\",\"decimal\":\"0.166\"}}},",
    "{\"query\":\"P(b given a & !a)\",\"status\":\"open\",",
    "\"why\":\"not finished within the time limit; allow more by --time-limit\",",
    "\"lower\":{\"exact\":null,\"decimal\":null,",
    "\"why\":\"not finished within the time limit; allow more by --time-limit\",",
    "\"proved\":\"0\",\"reached\":null},",
    "\"upper\":{\"exact\":null,\"decimal\":null,",
    "\"why\":\"not finished within the time limit; allow more by --time-limit\",",
    "\"proved\":\"1\",\"reached\":null}}],",
    "\"clash\":null,",
    "\"counts\":{\"atoms\":2,\"sentences\":2,\"bounds\":2,\"queries\":2,\"open\":2},",
    "\"warnings\":[],\"status\":4}\n",
);

// What is shown where time is over once it was asked so often.
pub const LATE: [(u32, Row); 5] = [
    (
        0,
        Row {
            text: PROBLEM,
            style: Style::Words,
            shown: "open: whether a distribution meets all sentences isn't known; \
                not finished within the time limit; allow more by --time-limit\n",
            noted: WARNING,
            status: Status::Late,
        },
    ),
    (
        1,
        Row {
            text: SETTLED,
            style: Style::Words,
            shown: "consistent: some distribution meets all sentences
P(a & b)
  open: not finished within the time limit; allow more by --time-limit
  lower bound between 0 (proved) and 0.167 (reached)
  upper bound between 0.166 (reached) and 1 (proved)
P(b given a & !a)
  open: not finished within the time limit; allow more by --time-limit
  lower bound at least 0 (proved)
  upper bound at most 1 (proved)
",
            noted: "",
            status: Status::Late,
        },
    ),
    (
        1,
        Row {
            text: SETTLED,
            style: Style::Json,
            shown: SETTLED_OBJECT,
            noted: "",
            status: Status::Late,
        },
    ),
    (
        1,
        Row {
            text: PROBLEM,
            style: Style::Values,
            shown: "consistent\n? ?\n? ?\n? ?\n? ?\n",
            noted: WARNING,
            status: Status::Late,
        },
    ),
    (
        1,
        Row {
            text: PROBLEM,
            style: Style::Report,
            shown: "",
            noted: WARNING,
            status: Status::Late,
        },
    ),
];

// The sentences that clash first are those behind, and others clash that take a search.
const TWO_CLASHES: &[u8] = b"psat 1; P(b <-> c) = 1; P(c <-> d) = 1; P(b <-> !d) = 1;
P(a) = 1; P(!a) = 1; end;";

// What sentences that clash are shown with where time is over once it was asked so often, and no
// search may have a conflict.
pub const RESTS: [(u32, Row); 2] = [
    (
        5,
        Row {
            text: CLASH,
            style: Style::Words,
            shown: "inconsistent: no distribution meets all sentences
these sentences clash:
  sentence 1, line 1: P(a) = 1;
  sentence 3, line 4: P(!a) >= 1/2;
leave any one of them out, and the others of these no longer clash
  without sentence 1 it isn't known whether another clash stands: \
            not finished within the time limit; allow more by --time-limit
  without sentence 3 it isn't known whether another clash stands: \
            not finished within the time limit; allow more by --time-limit
",
            noted: "",
            status: Status::Inconsistent,
        },
    ),
    (
        100_000,
        Row {
            text: TWO_CLASHES,
            style: Style::Words,
            shown: "inconsistent: no distribution meets all sentences
these sentences clash:
  sentence 4, line 2: P(a) = 1;
  sentence 5, line 2: P(!a) = 1;
leave any one of them out, and the others of these no longer clash
  without sentence 4 it isn't known whether another clash stands: \
            a search stopped at the limit of 0 conflicts; allow more by --conflicts
  without sentence 5 it isn't known whether another clash stands: \
            a search stopped at the limit of 0 conflicts; allow more by --conflicts
",
            noted: "",
            status: Status::Inconsistent,
        },
    ),
];
