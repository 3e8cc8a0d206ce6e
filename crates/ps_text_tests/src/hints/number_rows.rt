//! Rows of tests: Errors in relations and their numbers.
use super::Row;

/// A text with each of the errors in relations and their numbers, and the whole message.
pub(super) const ROWS: [Row; 24] = [
    Row {
        text: "psat 1;\nP(a) = 0,5;\nend;\n",
        message: "f:2:9: found `,`, expected `;`
  P(a) = 0,5;
          ^
  hint: a decimal has a point: 0.5
",
    },
    Row {
        text: "psat 1;\nP(a) in [0,5, 1];\nend;\n",
        message: "f:2:12: found `5`, expected a number from 0 to 1
  P(a) in [0,5, 1];
             ^
  hint: a decimal has a point: 0.5
",
    },
    Row {
        text: "psat 1;\nP(a) = 30%;\nend;\n",
        message: "f:2:8: found `30`, expected a number from 0 to 1
  P(a) = 30%;
         ^
  hint: write 0.3 or 30/100 for 30%
",
    },
    Row {
        text: "psat 1;\nP(a) = 0.3%;\nend;\n",
        message: "f:2:11: found `%`, expected a word, a number or a sign
  P(a) = 0.3%;
            ^
  hint: write 0.3 or 30/100 for 30%
",
    },
    Row {
        text: "psat 1;\nP(a) = .5;\nend;\n",
        message: "f:2:8: found `.`, expected a word, a number or a sign
  P(a) = .5;
         ^
  hint: write a 0 before the point: 0.5
",
    },
    Row {
        text: "psat 1;\nP(a) = 1.;\nend;\n",
        message: "f:2:9: found `.`, expected a word, a number or a sign
  P(a) = 1.;
          ^
  hint: write a digit behind the point, or no point: 1.0 or 1
",
    },
    Row {
        text: "psat 1;\nP(a) = 1e-3;\nend;\n",
        message: "f:2:9: found `e`, expected `;`
  P(a) = 1e-3;
          ^
  hint: a number has no exponent: write 0.001 or 1/1000
",
    },
    Row {
        text: "psat 1;\nP(a) in [1e-3, 1];\nend;\n",
        message: "f:2:11: found `e`, expected `,`
  P(a) in [1e-3, 1];
            ^
  hint: a number has no exponent: write 0.001 or 1/1000
",
    },
    Row {
        text: "psat 1;\nP(a) = 1 / 2;\nend;\n",
        message: "f:2:10: found `/`, expected a word, a number or a sign
  P(a) = 1 / 2;
           ^
  hint: write a fraction without blanks: 1/2
",
    },
    Row {
        text: "psat 1;\nP(a) = -1;\nend;\n",
        message: "f:2:8: found `-`, expected a word, a number or a sign
  P(a) = -1;
         ^
  hint: no value is below 0; write -> for \"implies\" and ! for \"not\"
",
    },
    Row {
        text: "psat 1;\nP(a) = 30;\nend;\n",
        message: "f:2:8: found `30`, expected a number from 0 to 1
  P(a) = 30;
         ^
  hint: a probability is at most 1: write 0.3 or 30/100 for 30 per cent
",
    },
    Row {
        text: "psat 1;\nP(a) = 0.1234567;\nend;\n",
        message: "f:2:8: found `0.1234567`, expected at most 6 digits behind the point
  P(a) = 0.1234567;
         ^
  hint: round it, or write an interval: in [0.333333, 0.333334]
",
    },
    Row {
        text: "psat 1;\nP(a) = 1/2000000;\nend;\n",
        message: "f:2:8: found `1/2000000`, expected a denominator of at most 1000000
  P(a) = 1/2000000;
         ^
  hint: round it, or write an interval: in [0.333333, 0.333334]
",
    },
    Row {
        text: "psat 1;\nP(a) = 1/0;\nend;\n",
        message: "f:2:8: found `1/0`, expected a denominator of at least 1
  P(a) = 1/0;
         ^
",
    },
    Row {
        text: "psat 1;\nP(a) = b;\nend;\n",
        message: "f:2:8: found `b`, expected a number
  P(a) = b;
         ^
  hint: write a number here: 0.5 or 1/2
",
    },
    Row {
        text: "psat 1;\nP(a) in 0.1, 0.2;\nend;\n",
        message: "f:2:9: found `0.1`, expected `[`
  P(a) in 0.1, 0.2;
          ^
  hint: write an interval as in [1/4, 1/2]
",
    },
    Row {
        text: "psat 1;\nP(a) in [0.1 0.2];\nend;\n",
        message: "f:2:14: found `0.2`, expected `,`
  P(a) in [0.1 0.2];
               ^
  hint: write an interval as in [1/4, 1/2]
",
    },
    Row {
        text: "psat 1;\nP(a) in [0.1, 0.2;\nend;\n",
        message: "f:2:18: found `;`, expected `]`
  P(a) in [0.1, 0.2;
                   ^
  hint: write an interval as in [1/4, 1/2]
",
    },
    Row {
        text: "psat 1;\nP(a) < 1;\nend;\n",
        message: "f:2:6: found `<`, expected a word, a number or a sign
  P(a) < 1;
       ^
  hint: write <= for \"at most\": no bound is strict
",
    },
    Row {
        text: "psat 1;\nP(a) > 1;\nend;\n",
        message: "f:2:6: found `>`, expected a word, a number or a sign
  P(a) > 1;
       ^
  hint: write >= for \"at least\": no bound is strict
",
    },
    Row {
        text: "psat 1;\nP(a) == 1;\nend;\n",
        message: "f:2:7: found `=`, expected a number
  P(a) == 1;
        ^
  hint: one = is enough
",
    },
    Row {
        text: "psat 1;\nP(a);\nend;\n",
        message: "f:2:5: found `;`, expected `=`, `>=`, `<=` or `in`
  P(a);
      ^
  hint: write =, >=, <= or in [.., ..] and a value; to ask, write query before P
",
    },
    Row {
        text: "psat 1;\nP(a) -> P(b) = 1;\nend;\n",
        message: "f:2:6: found `->`, expected `=`, `>=`, `<=` or `in`
  P(a) -> P(b) = 1;
       ^
  hint: write this inside of the parentheses: P(a -> b)
",
    },
    Row {
        text: "psat 1;\nP(a) <-> P(b) = 1;\nend;\n",
        message: "f:2:6: found `<->`, expected `=`, `>=`, `<=` or `in`
  P(a) <-> P(b) = 1;
       ^
  hint: write this inside of the parentheses: P(a -> b)
",
    },
];
