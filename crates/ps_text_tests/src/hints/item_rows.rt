//! Rows of tests: Errors in sentences, queries and their ends.
use super::Row;

/// A text with each of the errors in sentences, queries and their ends, and the whole message.
pub(super) const ROWS: [Row; 10] = [
    Row {
        text: "psat 1;\nPr(a) = 1;\nend;\n",
        message: "f:2:1: found `Pr`, expected `P`, `query` or `end`
  Pr(a) = 1;
  ^
  hint: write a probability as P(..)
",
    },
    Row {
        text: "psat 1;\np(a) = 1;\nend;\n",
        message: "f:2:1: found `p`, expected `P`, `query` or `end`
  p(a) = 1;
  ^
  hint: write a probability as P(..)
",
    },
    Row {
        text: "psat 1;\nP a = 1;\nend;\n",
        message: "f:2:3: found `a`, expected `(`
  P a = 1;
    ^
  hint: write a probability as P(..)
",
    },
    Row {
        text: "psat 1;\nquery rain;\nend;\n",
        message: "f:2:7: found `rain`, expected `P`
  query rain;
        ^
  hint: begin a sentence with P(, and a query with query P(
",
    },
    Row {
        text: "psat 1;\nQuery P(a);\nend;\n",
        message: "f:2:1: found `Query`, expected `P`, `query` or `end`
  Query P(a);
  ^
  hint: write psat, given, in, query, end, true and false in small letters
",
    },
    Row {
        text: "psat 1;\nrain = 1;\nend;\n",
        message: "f:2:1: found `rain`, expected `P`, `query` or `end`
  rain = 1;
  ^
  hint: begin a sentence with P(, and a query with query P(
",
    },
    Row {
        text: "psat 1;\nP(a) = 1;;\nend;\n",
        message: "f:2:10: found `;`, expected `P`, `query` or `end`
  P(a) = 1;;
           ^
  hint: one ; is enough
",
    },
    Row {
        text: "psat 1;\nP(a) = 1 P(b) = 1;\nend;\n",
        message: "f:2:10: found `P`, expected `;`
  P(a) = 1 P(b) = 1;
           ^
  hint: end each sentence and each query with ;
",
    },
    Row {
        text: "psat 1;\n// so\nend;\n",
        message: "f:2:1: found `/`, expected a word, a number or a sign
  // so
  ^
  hint: a comment begins with # and ends with its line
",
    },
    Row {
        text: "psat 1;\nP(aaaaaaaaaabbbbbbbbbbccccccccccddd) = 1;\nend;\n",
        message: "f:2:3: found `aaaaaaaaaabbbbbbbbbbccccccccccddd`, expected a name of at most 32 bytes
  P(aaaaaaaaaabbbbbbbbbbccccccccccddd) = 1;
    ^
  hint: write a shorter name
",
    },
];
