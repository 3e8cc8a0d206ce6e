//! Rows of tests: Errors in linear sentences.
use super::Row;

/// A text with each of the errors in linear sentences, and the whole message.
pub(super) const ROWS: [Row; 23] = [
    Row {
        text: "psat 1;\nP(a) >= P(b);\nend;\n",
        message: "f:2:9: found `P`, expected a number
  P(a) >= P(b);
          ^
  hint: begin the text with psat 2; and write P(a) - P(b) >= 0 for P(a) >= P(b)
",
    },
    Row {
        text: "psat 2;\nP(a) >= P(b);\nend;\n",
        message: "f:2:9: found `P`, expected a number
  P(a) >= P(b);
          ^
  hint: write P(a) - P(b) >= 0 for P(a) >= P(b)
",
    },
    Row {
        text: "psat 1;\nP(a) >= 2 * P(b);\nend;\n",
        message: "f:2:9: found `2`, expected a number from 0 to 1
  P(a) >= 2 * P(b);
          ^
  hint: begin the text with psat 2; and write P(a) - 2 P(b) >= 0 for P(a) >= 2 * P(b)
",
    },
    Row {
        text: "psat 2;\nP(a) >= 2 * P(b);\nend;\n",
        message: "f:2:9: found `2`, expected a number from 0 to 1
  P(a) >= 2 * P(b);
          ^
  hint: write P(a) - 2 P(b) >= 0 for P(a) >= 2 * P(b)
",
    },
    Row {
        text: "psat 1;\nP(a) + P(b) <= 1;\nend;\n",
        message: "f:2:6: found `+`, expected a word, a number or a sign
  P(a) + P(b) <= 1;
       ^
  hint: begin the text with psat 2; for sums: P(a) + P(b) <= 1, or 2 P(a) - 1/3 P(b) >= 1/2
",
    },
    Row {
        text: "psat 1;\n2 P(a) <= 1;\nend;\n",
        message: "f:2:1: found `2`, expected `P`, `query` or `end`
  2 P(a) <= 1;
  ^
  hint: begin the text with psat 2; for sums: P(a) + P(b) <= 1, or 2 P(a) - 1/3 P(b) >= 1/2
",
    },
    Row {
        text: "psat 2;\n2 * P(a) <= 1;\nend;\n",
        message: "f:2:3: found `*`, expected a word, a number or a sign
  2 * P(a) <= 1;
    ^
  hint: write 2 P(a) for 2 * P(a)
",
    },
    Row {
        text: "psat 2;\n+ P(a) >= 0;\nend;\n",
        message: "f:2:1: found `+`, expected a sentence, `query` or `end`
  + P(a) >= 0;
  ^
  hint: begin a sentence with P(, and a query with query P(
",
    },
    Row {
        text: "psat 2;\nP(a) + - P(b) >= 0;\nend;\n",
        message: "f:2:8: found `-`, expected a number or `P`
  P(a) + - P(b) >= 0;
         ^
  hint: one sign stands before a term
",
    },
    Row {
        text: "psat 2;\n2 a >= 0;\nend;\n",
        message: "f:2:3: found `a`, expected `P`
  2 a >= 0;
    ^
  hint: write P(..) here, perhaps with a number before it: 2 P(a) or 1/3 P(a)
",
    },
    Row {
        text: "psat 2;\nP(a) - 1/2 >= 0;\nend;\n",
        message: "f:2:12: found `>=`, expected `P`
  P(a) - 1/2 >= 0;
             ^
  hint: a number without P(..) stands behind the relation: P(a) - P(b) >= 1/2
",
    },
    Row {
        text: "psat 2;\n0.2 <= P(a) <= 0.3;\nend;\n",
        message: "f:2:5: found `<=`, expected `P`
  0.2 <= P(a) <= 0.3;
      ^
  hint: write P(a) in [0.2, 0.3] for 0.2 <= P(a) <= 0.3, and P(a) >= 0.2 for 0.2 <= P(a)
",
    },
    Row {
        text: "psat 2;\n1000001 P(a) >= 0;\nend;\n",
        message: "f:2:1: found `1000001`, expected a number of at most 1000000
  1000001 P(a) >= 0;
  ^
  hint: divide all numbers of the sentence by the same number
",
    },
    Row {
        text: "psat 2;\nP(a) # not so\n  - P(b) >= 1000001;\nend;\n",
        message: "f:3:13: found `1000001`, expected a number of at most 1000000
    - P(b) >= 1000001;
              ^
  hint: divide all numbers of the sentence by the same number
",
    },
    Row {
        text: "psat 2;\nP(a) # - not so\n  >= 3;\nend;\n",
        message: "f:3:6: found `3`, expected a number from 0 to 1
    >= 3;
       ^
  hint: a probability is at most 1: write 0.3 or 30/100 for 30 per cent
",
    },
    Row {
        text: "psat 2;\n1000000 P(a) + 1000000 P(b) >= 1;\nend;\n",
        message: "f:2:1: with this a sentence's numbers are too large
  1000000 P(a) + 1000000 P(b) >= 1;
  ^
  hint: round them: over a denominator of at most 1000000 they sum to at most 2000000
",
    },
    Row {
        text: "psat 2;\nP(a given b) - P(b) >= 0;\nend;\n",
        message: "f:2:14: found `-`, expected `=`, `>=`, `<=` or `in`
  P(a given b) - P(b) >= 0;
               ^
  hint: in a sum write P(a & c) - P(b & c) >= 0 for P(a given c) >= P(b given c)
",
    },
    Row {
        text: "psat 2;\nP(a) - P(b given c) >= 0;\nend;\n",
        message: "f:2:12: found `given`, expected `&`, `|`, `->`, `<->` or `)`
  P(a) - P(b given c) >= 0;
             ^
  hint: in a sum write P(a & c) - P(b & c) >= 0 for P(a given c) >= P(b given c)
",
    },
    Row {
        text: "psat 2;\nP(a) P(b) >= 0;\nend;\n",
        message: "f:2:6: found `P`, expected `+`, `-`, `=`, `>=`, `<=` or `in`
  P(a) P(b) >= 0;
       ^
  hint: write =, >=, <= or in [.., ..] and a value; to ask, write query before P
",
    },
    Row {
        text: "psat 2;\nP(a) = -1;\nend;\n",
        message: "f:2:8: found `-`, expected a number
  P(a) = -1;
         ^
  hint: no value is below 0; write -> for \"implies\" and ! for \"not\"
",
    },
    Row {
        text: "psat 2;\nquery P(a) - P(b);\nend;\n",
        message: "f:2:12: found `-`, expected `;`
  query P(a) - P(b);
             ^
  hint: a query asks for one P(..): ask for each by itself
",
    },
    Row {
        text: "psat 2;\nP(a) >= 1 - P(b);\nend;\n",
        message: "f:2:11: found `-`, expected `;`
  P(a) >= 1 - P(b);
            ^
  hint: write P(a) + P(b) >= 1 for P(a) >= 1 - P(b)
",
    },
    Row {
        text: "psat 2;\nP(a-b) = 1;\nend;\n",
        message: "f:2:4: found `-`, expected `&`, `|`, `->`, `<->`, `given` or `)`
  P(a-b) = 1;
     ^
  hint: a name has letters, digits and _, but no -
",
    },
];
