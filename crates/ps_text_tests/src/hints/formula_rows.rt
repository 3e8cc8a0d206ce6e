//! Rows of tests: Errors in formulas.
use super::Row;

/// A text with each of the errors in formulas, and the whole message.
pub(super) const ROWS: [Row; 21] = [
    Row {
        text: "psat 1;\nP(a and b) = 1;\nend;\n",
        message: "f:2:5: found `and`, expected `&`, `|`, `->`, `<->`, `given` or `)`
  P(a and b) = 1;
      ^
  hint: write & for \"and\"
",
    },
    Row {
        text: "psat 1;\nP(a or b) = 1;\nend;\n",
        message: "f:2:5: found `or`, expected `&`, `|`, `->`, `<->`, `given` or `)`
  P(a or b) = 1;
      ^
  hint: write | for \"or\"
",
    },
    Row {
        text: "psat 1;\nP(not a) = 1;\nend;\n",
        message: "f:2:3: found `not`, expected `!`
  P(not a) = 1;
    ^
  hint: write ! for \"not\"
",
    },
    Row {
        text: "psat 1;\nP(a implies b) = 1;\nend;\n",
        message: "f:2:5: found `implies`, expected `&`, `|`, `->`, `<->`, `given` or `)`
  P(a implies b) = 1;
      ^
  hint: write -> for \"implies\"
",
    },
    Row {
        text: "psat 1;\nP(a iff b) = 1;\nend;\n",
        message: "f:2:5: found `iff`, expected `&`, `|`, `->`, `<->`, `given` or `)`
  P(a iff b) = 1;
      ^
  hint: write <-> for \"if and only if\"
",
    },
    Row {
        text: "psat 1;\nP(a && b) = 1;\nend;\n",
        message: "f:2:6: found `&`, expected a formula
  P(a && b) = 1;
       ^
  hint: one & is enough
",
    },
    Row {
        text: "psat 1;\nP(a || b) = 1;\nend;\n",
        message: "f:2:6: found `|`, expected a formula
  P(a || b) = 1;
       ^
  hint: one | is enough
",
    },
    Row {
        text: "psat 1;\nP(a => b) = 1;\nend;\n",
        message: "f:2:5: found `=`, expected `&`, `|`, `->`, `<->`, `given` or `)`
  P(a => b) = 1;
      ^
  hint: write -> for \"implies\"
",
    },
    Row {
        text: "psat 1;\nP(a == b) = 1;\nend;\n",
        message: "f:2:5: found `=`, expected `&`, `|`, `->`, `<->`, `given` or `)`
  P(a == b) = 1;
      ^
  hint: write <-> for \"if and only if\"
",
    },
    Row {
        text: "psat 1;\nP(a <=> b) = 1;\nend;\n",
        message: "f:2:5: found `<=`, expected `&`, `|`, `->`, `<->`, `given` or `)`
  P(a <=> b) = 1;
      ^
  hint: write <-> for \"if and only if\"
",
    },
    Row {
        text: "psat 1;\nP(a <- b) = 1;\nend;\n",
        message: "f:2:5: found `<`, expected a word, a number or a sign
  P(a <- b) = 1;
      ^
  hint: write b -> a for a <- b
",
    },
    Row {
        text: "psat 1;\nP(a, b) = 1;\nend;\n",
        message: "f:2:4: found `,`, expected `&`, `|`, `->`, `<->`, `given` or `)`
  P(a, b) = 1;
     ^
  hint: write & for \"and\"
",
    },
    Row {
        text: "psat 1;\nP(a given b given c) = 1;\nend;\n",
        message: "f:2:13: found `given`, expected `&`, `|`, `->`, `<->`, `given` or `)`
  P(a given b given c) = 1;
              ^
  hint: one given may stand, outside of inner parentheses: join conditions by &
",
    },
    Row {
        text: "psat 1;\nP((a & b) = 1;\nend;\n",
        message: "f:2:11: found `=`, expected `&`, `|`, `->`, `<->`, `given` or `)`
  P((a & b) = 1;
            ^
  hint: a ( before this isn't closed
",
    },
    Row {
        text: "psat 1;\nP(rain wet) = 1;\nend;\n",
        message: "f:2:8: found `wet`, expected `&`, `|`, `->`, `<->`, `given` or `)`
  P(rain wet) = 1;
         ^
  hint: write &, |, -> or <-> between two formulas, and a name without blanks
",
    },
    Row {
        text: "psat 1;\nP(a & ) = 1;\nend;\n",
        message: "f:2:7: found `)`, expected a formula
  P(a & ) = 1;
        ^
  hint: write a name, true, false, ! or ( here
",
    },
    Row {
        text: "psat 1;\nP(end) = 1;\nend;\n",
        message: "f:2:3: found `end`, expected a formula
  P(end) = 1;
    ^
  hint: this word is reserved: take another name
",
    },
    Row {
        text: "psat 1;\nP(P(a)) = 1;\nend;\n",
        message: "f:2:3: found `P`, expected a formula
  P(P(a)) = 1;
    ^
  hint: this word is reserved: take another name
",
    },
    Row {
        text: "psat 1;\nP(2a) = 1;\nend;\n",
        message: "f:2:3: found `2a`, expected a formula
  P(2a) = 1;
    ^
  hint: a name begins with a letter
",
    },
    Row {
        text: "psat 1;\nP(1) = 1;\nend;\n",
        message: "f:2:3: found `1`, expected a formula
  P(1) = 1;
    ^
  hint: write true for 1 and false for 0
",
    },
    Row {
        text: "psat 1;\nP(a Given b) = 1;\nend;\n",
        message: "f:2:5: found `Given`, expected `&`, `|`, `->`, `<->`, `given` or `)`
  P(a Given b) = 1;
      ^
  hint: write psat, given, in, query, end, true and false in small letters
",
    },
];
