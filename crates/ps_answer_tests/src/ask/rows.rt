//! Inputs, and what is to be shown of their answers.
use ps_ask::{Status, Style};

pub const PROBLEM: &[u8] = b"psat 1;
P(rain) = 0.3;
P(wet given rain) >= 0.9;
P(dry | wet) = 1; P(rain) = 3/10;
query P(wet);
query P(rain & wet);
query P(dry given rain & !rain);
query P(rain);
end;
";

pub const WORDS: &str = "consistent: some distribution meets all sentences
P(wet)
  between 27/100 and 1 (0.270 to 1.000)
P(rain & wet)
  between 27/100 and 3/10 (0.270 to 0.300)
P(dry given rain & !rain)
  impossible: the sentences give the condition probability 0
P(rain)
  one value: 3/10 (0.300 to 0.300)
";

const VALUES: &str = "consistent
0.270 1.000
0.270 0.300
impossible
0.300 0.300
";

const EXACT: &str = "consistent
27/100 1
27/100 3/10
impossible
3/10 3/10
";

const OBJECT: &str = concat!(
    "{\"file\":\"f\",\"verdict\":\"consistent\",\"why\":null,\"queries\":[",
    "{\"query\":\"P(wet)\",\"status\":\"bounds\",\"why\":null,",
    "\"lower\":{\"exact\":\"27/100\",\"decimal\":\"0.270\",\"why\":null},",
    "\"upper\":{\"exact\":\"1\",\"decimal\":\"1.000\",\"why\":null}},",
    "{\"query\":\"P(rain & wet)\",\"status\":\"bounds\",\"why\":null,",
    "\"lower\":{\"exact\":\"27/100\",\"decimal\":\"0.270\",\"why\":null},",
    "\"upper\":{\"exact\":\"3/10\",\"decimal\":\"0.300\",\"why\":null}},",
    "{\"query\":\"P(dry given rain & !rain)\",\"status\":\"impossible\",\"why\":null,",
    "\"lower\":null,\"upper\":null},",
    "{\"query\":\"P(rain)\",\"status\":\"one value\",\"why\":null,",
    "\"lower\":{\"exact\":\"3/10\",\"decimal\":\"0.300\",\"why\":null},",
    "\"upper\":{\"exact\":\"3/10\",\"decimal\":\"0.300\",\"why\":null}}],",
    "\"clash\":null,",
    "\"counts\":{\"atoms\":3,\"sentences\":4,\"bounds\":4,\"queries\":4,\"open\":0},",
    "\"warnings\":[{\"line\":4,\"kind\":\"twice\",",
    "\"text\":\"P(rain): the same sentence stands on line 2\"}],",
    "\"status\":0}\n",
);

pub const WARNING: &str = "f:4: warning: P(rain): the same sentence stands on line 2\n";

pub const CLASH: &[u8] = b"psat 1; P(a) = 1; # P(c) = 1;
P(b) <= 1/2; query P(a);

P(!a) >= 1/2; end;";

const CLASH_WORDS: &str = "inconsistent: no distribution meets all sentences
these sentences clash:
  sentence 1, line 1: P(a) = 1;
  sentence 3, line 4: P(!a) >= 1/2;
leave any one of them out, and all the others can be met together
";

const CLASH_OBJECT: &str = concat!(
    "{\"file\":\"f\",\"verdict\":\"inconsistent\",\"why\":null,\"queries\":[],",
    "\"clash\":{\"irreducible\":true,\"why\":null,\"sentences\":[",
    "{\"number\":1,\"line\":1,\"text\":\"P(a) = 1;\",\"without\":\"met\"},",
    "{\"number\":3,\"line\":4,\"text\":\"P(!a) >= 1/2;\",\"without\":\"met\"}]},",
    "\"counts\":{\"atoms\":2,\"sentences\":3,\"bounds\":3,\"queries\":1,\"open\":0},",
    "\"warnings\":[],",
    "\"status\":1}\n",
);

// Sentences are shown by their canonical text.
const SUMS: &[u8] = b"psat 2; P(a) - P(b) >= 0.5;
P(c) = 1/2;
2/2 P(a) + P((b)) <= 0.25; end;";

const SUMS_WORDS: &str = "inconsistent: no distribution meets all sentences
these sentences clash:
  sentence 1, line 1: 1 P(a) - 1 P(b) >= 1/2;
  sentence 3, line 3: 1 P(a) + 1 P(b) <= 1/4;
leave any one of them out, and all the others can be met together
";

const SUMS_OBJECT: &str = concat!(
    "{\"file\":\"f\",\"verdict\":\"inconsistent\",\"why\":null,\"queries\":[],",
    "\"clash\":{\"irreducible\":true,\"why\":null,\"sentences\":[",
    "{\"number\":1,\"line\":1,\"text\":\"1 P(a) - 1 P(b) >= 1/2;\",\"without\":\"met\"},",
    "{\"number\":3,\"line\":3,\"text\":\"1 P(a) + 1 P(b) <= 1/4;\",\"without\":\"met\"}]},",
    "\"counts\":{\"atoms\":3,\"sentences\":3,\"bounds\":3,\"queries\":0,\"open\":0},",
    "\"warnings\":[],",
    "\"status\":1}\n",
);

// A ranking of three that exclude each other: the least has a third at most.
const RANKED: &[u8] = b"psat 2; P(a & b | a & c | b & c) = 0;
P(a) - P(b) >= 0; P(b) - P(c) >= 0;
query P(c); query P(a given a | b | c); end;";

const RANKED_WORDS: &str = "consistent: some distribution meets all sentences
P(c)
  between 0 and 1/3 (0.000 to 0.334)
P(a given a | b | c)
  between 1/3 and 1 (0.333 to 1.000)
";

// Bounds that say nothing, small distances from 0, from 1 and between bounds, and long fractions.
const DISTANCES: &[u8] = b"psat 1; P(a | b) >= 1/2; P(c) = 1/2000; P(d) = 9999/10000;
P(e) in [1/3, 0.3335]; P(f) = 1/1000000; P(g given f) = 1/1000; P(h given f) in [1/1000, 1/500];
query P(a); query P(c); query P(d); query P(e); query P(f & g); query P(f & h); end;";

const DISTANCES_WORDS: &str = "consistent: some distribution meets all sentences
P(a)
  nothing follows: anything from 0 to 1
P(c)
  one value: 1/2000 (0.000500 to 0.000500)
P(d)
  one value: 9999/10000 (0.999900 to 0.999900)
P(e)
  between 1/3 and 667/2000 (0.333333 to 0.333500)
P(f & g)
  one value: 0.000000001 to 0.000000001 (1/1000000000)
P(f & h)
  between 0.000000001 and 0.000000002 (1/1000000000 to 1/500000000)
";

const NOTE: &str = "f:1:13: found `b`, expected `&`, `|`, `->`, `<->`, `given` or `)`
  psat 1; P(a b) = 1; end;
              ^
  hint: write &, |, -> or <-> between two formulas, and a name without blanks
";

const UNREADABLE: &[u8] = b"psat 1; P(a b) = 1; end;";

// Two sentences that can't be read, with one between them that can.
const TWICE_UNREADABLE: &[u8] = b"psat 1; P(a b) = 1; P(a) = 1;\nP(a) = 30%; end;";

const NOTES: &str = "f:1:13: found `b`, expected `&`, `|`, `->`, `<->`, `given` or `)`
  psat 1; P(a b) = 1; P(a) = 1;
              ^
  hint: write &, |, -> or <-> between two formulas, and a name without blanks
f:2:8: found `30`, expected a number from 0 to 1
  P(a) = 30%; end;
         ^
  hint: write 0.3 or 30/100 for 30%
";

// Of the conditions one has no weight, and one has in no distribution but some.
const IDLE: &[u8] = b"psat 1; P(a) = 0; P(b) <= 1/2;
P(c given a & b) >= 1/2; P(c given b) >= 1/2;
query P(c); end;";

const IDLE_WARNING: &str = "f:2: warning: P(c given a & b): \
    the sentences give the condition probability 0, so this one says nothing\n";

// What is asked, and what is to be shown and noted, with the status.
pub struct Row {
    pub text: &'static [u8],
    pub style: Style,
    pub shown: &'static str,
    pub noted: &'static str,
    pub status: Status,
}

pub const ROWS: [Row; 16] = [
    Row {
        text: PROBLEM,
        style: Style::Words,
        shown: WORDS,
        noted: WARNING,
        status: Status::Done,
    },
    Row {
        text: PROBLEM,
        style: Style::Values,
        shown: VALUES,
        noted: WARNING,
        status: Status::Done,
    },
    Row {
        text: PROBLEM,
        style: Style::Exact,
        shown: EXACT,
        noted: WARNING,
        status: Status::Done,
    },
    Row {
        text: PROBLEM,
        style: Style::Json,
        shown: OBJECT,
        noted: WARNING,
        status: Status::Done,
    },
    Row {
        text: CLASH,
        style: Style::Words,
        shown: CLASH_WORDS,
        noted: "",
        status: Status::Inconsistent,
    },
    Row {
        text: CLASH,
        style: Style::Values,
        shown: "inconsistent\n",
        noted: "",
        status: Status::Inconsistent,
    },
    Row {
        text: CLASH,
        style: Style::Json,
        shown: CLASH_OBJECT,
        noted: "",
        status: Status::Inconsistent,
    },
    Row {
        text: CLASH,
        style: Style::Exact,
        shown: "inconsistent\n",
        noted: "",
        status: Status::Inconsistent,
    },
    Row {
        text: SUMS,
        style: Style::Words,
        shown: SUMS_WORDS,
        noted: "",
        status: Status::Inconsistent,
    },
    Row {
        text: SUMS,
        style: Style::Json,
        shown: SUMS_OBJECT,
        noted: "",
        status: Status::Inconsistent,
    },
    Row {
        text: RANKED,
        style: Style::Words,
        shown: RANKED_WORDS,
        noted: "",
        status: Status::Done,
    },
    Row {
        text: DISTANCES,
        style: Style::Words,
        shown: DISTANCES_WORDS,
        noted: "",
        status: Status::Done,
    },
    Row {
        text: UNREADABLE,
        style: Style::Words,
        shown: "",
        noted: NOTE,
        status: Status::Unreadable,
    },
    Row {
        text: TWICE_UNREADABLE,
        style: Style::Exact,
        shown: "",
        noted: NOTES,
        status: Status::Unreadable,
    },
    Row {
        text: UNREADABLE,
        style: Style::Json,
        shown: "",
        noted: NOTE,
        status: Status::Unreadable,
    },
    Row {
        text: IDLE,
        style: Style::Values,
        shown: "consistent\n0.000 1.000\n",
        noted: IDLE_WARNING,
        status: Status::Done,
    },
];

// Of problems that are warned of, what is shown and noted where no warnings are wanted.
pub const UNWARNED: [Row; 2] = [
    Row {
        text: PROBLEM,
        style: Style::Words,
        shown: WORDS,
        noted: "",
        status: Status::Done,
    },
    Row {
        text: IDLE,
        style: Style::Values,
        shown: "consistent\n0.000 1.000\n",
        noted: "",
        status: Status::Done,
    },
];

pub const OPEN: Row = Row {
    text: b"psat 1; P(a <-> b) = 1; P(b <-> c) = 1; P(a <-> !c) = 1; query P(a); end;",
    style: Style::Words,
    shown: "open: whether a distribution meets all sentences isn't known; \
        a search stopped at the limit of 0 conflicts; allow more by --conflicts\n",
    noted: "",
    status: Status::Unfinished,
};
