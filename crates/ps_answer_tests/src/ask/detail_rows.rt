//! Inputs, and what is to be shown beneath the bounds of their queries.
use super::rows::Row;
use ps_ask::{Status, Style};

// With r for rain and w for wet, w - 63/100 is at least (r & w) - 9/10 r and 9/10 (r - 7/10) together
// in each of the four worlds. Each bound is reached by one distribution alone.
const WET: &[u8] = b"psat 1;
P(rain) = 0.7;
P(wet given rain) >= 0.9;
query P(wet);
end;
";

// c is at least (a & c) - 4/5 a and 4/5 a together in each world, and a at least 1/10; b stands for
// itself. The query of !a turns the interval round.
const ENDS: &[u8] = b"psat 1;
P(a) in [0.1, 0.3];
P(b) <= 0.5;
P(c given a) >= 0.8;
query P(c);
query P(!a);
end;
";

const WET_WHY: &str = "consistent: some distribution meets all sentences
P(wet)
  between 63/100 and 1 (0.630 to 1.000)
  lower bound 63/100 rests on line 3: P(wet given rain) >= 9/10,
    and line 2: P(rain) = 7/10 (1/100 more there raises the bound by at least 9/1000)
  upper bound 1 rests on no sentence
some bound rests on each sentence
";

const ENDS_WHY: &str = "consistent: some distribution meets all sentences
P(c)
  between 2/25 and 1 (0.080 to 1.000)
  lower bound 2/25 rests on line 4: P(c given a) >= 4/5,
    and line 2: P(a) in [1/10, 3/10] \
    (its lower end; 1/100 more there raises the bound by at least 1/125)
  upper bound 1 rests on no sentence
P(!a)
  between 7/10 and 9/10 (0.700 to 0.900)
  lower bound 7/10 rests on line 2: P(a) in [1/10, 3/10] \
    (its upper end; 1/100 more there lowers the bound by at most 1/100)
  upper bound 9/10 rests on line 2: P(a) in [1/10, 3/10] \
    (its lower end; 1/100 more there lowers the bound by at least 1/100)
no bound rests on these sentences:
  line 3: P(b) <= 1/2
";

const WET_WHY_OBJECT: &str = concat!(
    "{\"file\":\"f\",\"verdict\":\"consistent\",\"why\":null,\"queries\":[",
    "{\"query\":\"P(wet)\",\"status\":\"bounds\",\"why\":null,",
    "\"lower\":{\"exact\":\"63/100\",\"decimal\":\"0.630\",\"why\":null,\"rests_on\":[",
    "{\"number\":2,\"line\":3,\"text\":\"P(wet given rain) >= 9/10;\",\"end\":null,",
    "\"multiplier\":\"1\",\"hundredth\":null},",
    "{\"number\":1,\"line\":2,\"text\":\"P(rain) = 7/10;\",\"end\":null,",
    "\"multiplier\":\"9/10\",\"hundredth\":\"9/1000\"}]},",
    "\"upper\":{\"exact\":\"1\",\"decimal\":\"1.000\",\"why\":null,\"rests_on\":[]}}],",
    "\"clash\":null,\"unused\":[],",
    "\"counts\":{\"atoms\":2,\"sentences\":2,\"bounds\":2,\"queries\":1,\"open\":0},",
    "\"warnings\":[],\"status\":0}\n",
);

// The rules of d and f bear nothing of c, whatever a proof of its bound says of them.
const RULES: &[u8] = b"psat 1;
P(a) >= 0.2;
P(a -> c) = 1;
P(d -> e) = 1;
P(f -> g) = 1;
query P(c);
end;
";

const RULES_WHY: &str = "consistent: some distribution meets all sentences
P(c)
  between 1/5 and 1 (0.200 to 1.000)
  lower bound 1/5 rests on line 2: P(a) >= 1/5 \
    (1/100 more there raises the bound by at least 1/100),
    and line 3: P(a -> c) = 1 (1/100 more there raises the bound by at least 1/100)
  upper bound 1 rests on no sentence
no bound rests on these sentences:
  line 4: P(d -> e) = 1
  line 5: P(f -> g) = 1
";

/// What is shown where the sentences are asked for on which each bound rests.
pub const WHY: [Row; 5] = [
    Row {
        text: WET,
        style: Style::Words,
        shown: WET_WHY,
        noted: "",
        status: Status::Done,
    },
    Row {
        text: ENDS,
        style: Style::Words,
        shown: ENDS_WHY,
        noted: "",
        status: Status::Done,
    },
    Row {
        text: RULES,
        style: Style::Words,
        shown: RULES_WHY,
        noted: "",
        status: Status::Done,
    },
    Row {
        text: WET,
        style: Style::Json,
        shown: WET_WHY_OBJECT,
        noted: "",
        status: Status::Done,
    },
    Row {
        text: WET,
        style: Style::Values,
        shown: "consistent\n0.630 1.000\n",
        noted: "",
        status: Status::Done,
    },
];

// No two of the atoms are true together, and their probabilities sum to 1: so each of the ten worlds
// with one of them true has its probability, and no other world has any.
const ONE_OF_TEN: &[u8] = b"psat 1;
P(a) = 1/55; P(b) = 2/55; P(c) = 3/55; P(d) = 4/55; P(e) = 5/55;
P(f) = 6/55; P(g) = 7/55; P(h) = 8/55; P(i) = 9/55; P(j) = 10/55;
P(a & (b | c | d | e | f | g | h | i | j)) = 0;
P(b & (c | d | e | f | g | h | i | j)) = 0;
P(c & (d | e | f | g | h | i | j)) = 0;
P(d & (e | f | g | h | i | j)) = 0;
P(e & (f | g | h | i | j)) = 0;
P(f & (g | h | i | j)) = 0;
P(g & (h | i | j)) = 0;
P(h & (i | j)) = 0;
P(i & j) = 0;
query P(j);
end;
";

const TEN_SHOWN: &str = "consistent: some distribution meets all sentences
P(j)
  one value: 2/11 (0.181 to 0.182)
  lower bound 2/11 is reached by 2/11: j;
    9/55: i;
    8/55: h;
    7/55: g;
    6/55: f;
    1/11: e;
    4/55: d;
    3/55: c;
    and 2 more worlds
  upper bound 2/11 is reached by 2/11: j;
    9/55: i;
    8/55: h;
    7/55: g;
    6/55: f;
    1/11: e;
    4/55: d;
    3/55: c;
    and 2 more worlds
";

const WET_EXAMPLES: &str = "consistent: some distribution meets all sentences
P(wet)
  between 63/100 and 1 (0.630 to 1.000)
  lower bound 63/100 is reached by 63/100: rain and wet;
    3/10: nothing of these;
    7/100: rain
  upper bound 1 is reached by 7/10: rain and wet;
    3/10: wet
";

const WET_EXAMPLES_OBJECT: &str = concat!(
    "{\"file\":\"f\",\"verdict\":\"consistent\",\"why\":null,\"queries\":[",
    "{\"query\":\"P(wet)\",\"status\":\"bounds\",\"why\":null,",
    "\"lower\":{\"exact\":\"63/100\",\"decimal\":\"0.630\",\"why\":null,\"example\":[",
    "{\"probability\":\"63/100\",\"true\":[\"rain\",\"wet\"]},",
    "{\"probability\":\"3/10\",\"true\":[]},",
    "{\"probability\":\"7/100\",\"true\":[\"rain\"]}]},",
    "\"upper\":{\"exact\":\"1\",\"decimal\":\"1.000\",\"why\":null,\"example\":[",
    "{\"probability\":\"7/10\",\"true\":[\"rain\",\"wet\"]},",
    "{\"probability\":\"3/10\",\"true\":[\"wet\"]}]}}],\"clash\":null,",
    "\"counts\":{\"atoms\":2,\"sentences\":2,\"bounds\":2,\"queries\":1,\"open\":0},",
    "\"warnings\":[],\"status\":0}\n",
);

/// What is shown where distributions are asked for that reach bounds.
pub const EXAMPLES: [Row; 3] = [
    Row {
        text: WET,
        style: Style::Words,
        shown: WET_EXAMPLES,
        noted: "",
        status: Status::Done,
    },
    Row {
        text: WET,
        style: Style::Json,
        shown: WET_EXAMPLES_OBJECT,
        noted: "",
        status: Status::Done,
    },
    Row {
        text: ONE_OF_TEN,
        style: Style::Words,
        shown: TEN_SHOWN,
        noted: "",
        status: Status::Done,
    },
];
