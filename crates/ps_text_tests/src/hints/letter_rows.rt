//! Rows of tests: Letters and signs that no problem has.
use super::Row;

/// A text with each of the letters and signs that no problem has, and the whole message.
pub(super) const ROWS: [Row; 14] = [
    Row {
        text: "psat 1;\nP(é) = 1;\nend;\n",
        message: "f:2:3: found `é` (U+00E9), expected a word, a number or a sign
  P(é) = 1;
    ^
  hint: a name has the letters a to z and A to Z, digits and _
",
    },
    Row {
        text: "psat 1;\nP(café) = 1;\nend;\n",
        message: "f:2:6: found `é` (U+00E9), expected a word, a number or a sign
  P(café) = 1;
       ^
  hint: a name has the letters a to z and A to Z, digits and _
",
    },
    Row {
        text: "psat 1;\nP(a-b) = 1;\nend;\n",
        message: "f:2:4: found `-`, expected a word, a number or a sign
  P(a-b) = 1;
     ^
  hint: a name has letters, digits and _, but no -
",
    },
    Row {
        text: "psat 1;\nP(\"a\") = 1;\nend;\n",
        message: "f:2:3: found `\"`, expected a word, a number or a sign
  P(\"a\") = 1;
    ^
  hint: write names without quotes
",
    },
    Row {
        text: "psat 1;\nP(“a”) = 1;\nend;\n",
        message: "f:2:3: found `“` (U+201C), expected a word, a number or a sign
  P(“a”) = 1;
    ^
  hint: write names without quotes
",
    },
    Row {
        text: "psat 1;\nP(¬a) = 1;\nend;\n",
        message: "f:2:3: found `¬` (U+00AC), expected a word, a number or a sign
  P(¬a) = 1;
    ^
  hint: write ! for \"not\"
",
    },
    Row {
        text: "psat 1;\nP(a ∧ b) = 1;\nend;\n",
        message: "f:2:5: found `∧` (U+2227), expected a word, a number or a sign
  P(a ∧ b) = 1;
      ^
  hint: write & for \"and\"
",
    },
    Row {
        text: "psat 1;\nP(a ∨ b) = 1;\nend;\n",
        message: "f:2:5: found `∨` (U+2228), expected a word, a number or a sign
  P(a ∨ b) = 1;
      ^
  hint: write | for \"or\"
",
    },
    Row {
        text: "psat 1;\nP(a → b) = 1;\nend;\n",
        message: "f:2:5: found `→` (U+2192), expected a word, a number or a sign
  P(a → b) = 1;
      ^
  hint: write -> for \"implies\"
",
    },
    Row {
        text: "psat 1;\nP(a ⇔ b) = 1;\nend;\n",
        message: "f:2:5: found `⇔` (U+21D4), expected a word, a number or a sign
  P(a ⇔ b) = 1;
      ^
  hint: write <-> for \"if and only if\"
",
    },
    Row {
        text: "psat 1;\nP(a) ≤ 1;\nend;\n",
        message: "f:2:6: found `≤` (U+2264), expected a word, a number or a sign
  P(a) ≤ 1;
       ^
  hint: write <= for \"at most\"
",
    },
    Row {
        text: "psat 1;\nP(a) ≥ 1;\nend;\n",
        message: "f:2:6: found `≥` (U+2265), expected a word, a number or a sign
  P(a) ≥ 1;
       ^
  hint: write >= for \"at least\"
",
    },
    Row {
        text: "psat 1;\nP(a\x1b[31m) = 1;\nend;\n",
        message: "f:2:4: found the byte 27, expected a word, a number or a sign
  P(a?[31m) = 1;
     ^
",
    },
    Row {
        text: "psat 1;\nP(\u{202e}a) = 1;\nend;\n",
        message: "f:2:3: found U+202E, expected a word, a number or a sign
  P(?a) = 1;
    ^
  hint: this character can't be seen: delete it
",
    },
];
