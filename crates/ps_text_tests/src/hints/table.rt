//! What people write from habit, and what each message tells to write instead.

/// A line of a problem, and what the message about it says.
pub(super) struct Habit {
    pub(super) line: &'static str,
    pub(super) says: &'static str,
}

/// A line with each of the habits, and what the message says: where, or what to write.
pub(super) const HABITS: [Habit; 70] = [
    Habit {
        line: "P(a ==> b) = 1;",
        says: "write -> for",
    },
    Habit {
        line: "P(a => b) = 1;",
        says: "write -> for",
    },
    Habit {
        line: "P(a --> b) = 1;",
        says: "write -> for",
    },
    Habit {
        line: "P(if a then b) = 1;",
        says: "write -> for",
    },
    Habit {
        line: "P(a if b) = 1;",
        says: "P(a given b)",
    },
    Habit {
        line: "P(a = b) = 1;",
        says: "write <-> for",
    },
    Habit {
        line: "P(a == b) = 1;",
        says: "write <-> for",
    },
    Habit {
        line: "P(a = 1) = 1/2;",
        says: "write a for a = 1",
    },
    Habit {
        line: "P((a = 1/2;",
        says: "a ( before this isn't closed",
    },
    Habit {
        line: "P((a & b) = P(c);",
        says: "a ( before this isn't closed",
    },
    Habit {
        line: "P(a /\\ b) = 1;",
        says: "write & for",
    },
    Habit {
        line: "P(a \\/ b) = 1;",
        says: "write | for",
    },
    Habit {
        line: "P(a + b) = 1;",
        says: "write | for",
    },
    Habit {
        line: "P(a * b) = 1;",
        says: "write & for",
    },
    Habit {
        line: "P(a xor b) = 1;",
        says: "write !(a <-> b) for a xor b",
    },
    Habit {
        line: "P(a ⊕ b) = 1;",
        says: "write !(a <-> b) for a xor b",
    },
    Habit {
        line: "P(a & not b) = 1;",
        says: "f:2:7: found `not`, expected `!`",
    },
    Habit {
        line: "P(not a) = 1;",
        says: "f:2:3: found `not`, expected `!`",
    },
    Habit {
        line: "P(a givn b) = 1;",
        says: "is given meant?",
    },
    Habit {
        line: "P(a gievn b) = 1;",
        says: "is given meant?",
    },
    Habit {
        line: "P(a : b) = 1;",
        says: "P(a given b)",
    },
    Habit {
        line: "P(a) = 1 - 0.3;",
        says: "write the value itself: 0.7 for 1 - 0.3",
    },
    Habit {
        line: "P(a) = 1-0.3;",
        says: "write the value itself: 0.7 for 1 - 0.3",
    },
    Habit {
        line: "P(a) in [0.2-0.3];",
        says: "write an interval as in [1/4, 1/2]",
    },
    Habit {
        line: "P(a) in [0.2..0.3];",
        says: "write an interval as in [1/4, 1/2]",
    },
    Habit {
        line: "P(a) in [0.2–0.3];",
        says: "write an interval as in [1/4, 1/2]",
    },
    Habit {
        line: "P(a) in [0.2; 0.3];",
        says: "write an interval as in [1/4, 1/2]",
    },
    Habit {
        line: "0.2 <= P(a) <= 0.3;",
        says: "write P(a) in [0.2, 0.3]",
    },
    Habit {
        line: "P(a) >= 0.2 <= 0.3;",
        says: "write P(a) in [0.2, 0.3]",
    },
    Habit {
        line: "1/2 = P(a);",
        says: "write P(a) in [0.2, 0.3]",
    },
    Habit {
        line: "P(a) = 0.3 +- 0.1;",
        says: "in [0.2, 0.4] for 0.3 +- 0.1",
    },
    Habit {
        line: "P(a) = 0.3 +/- 0.1;",
        says: "in [0.2, 0.4] for 0.3 +- 0.1",
    },
    Habit {
        line: "P(a) = 0.3 ± 0.1;",
        says: "in [0.2, 0.4] for 0.3 +- 0.1",
    },
    Habit {
        line: "P(a) := 0.3;",
        says: "write = and the value",
    },
    Habit {
        line: "P(a): 0.3;",
        says: "write = and the value",
    },
    Habit {
        line: "P(a) => 0.3;",
        says: "write >= for \"at least\"\n",
    },
    Habit {
        line: "P(a) =< 0.3;",
        says: "write <= for \"at most\"\n",
    },
    Habit {
        line: "P(a) = 20 in 100;",
        says: "write 20/100 for 20 in 100",
    },
    Habit {
        line: "P(a) = 1 in 100;",
        says: "write 20/100 for 20 in 100",
    },
    Habit {
        line: "P(a) = 1 out of 6;",
        says: "write 20/100 for 20 in 100",
    },
    Habit {
        line: "P(a) = 30 percent;",
        says: "write 0.3 or 30/100",
    },
    Habit {
        line: "P(a) = 30 %;",
        says: "write 0.3 or 30/100",
    },
    Habit {
        line: "P(a) = 1/1,000;",
        says: "write the digits of a number side by side: 1/1000",
    },
    Habit {
        line: "P(a) = 1/1_000;",
        says: "write the digits of a number side by side: 1/1000",
    },
    Habit {
        line: "P(a) = 1/1 000;",
        says: "write the digits of a number side by side: 1/1000",
    },
    Habit {
        line: "P(a) = 0,3;",
        says: "a decimal has a point",
    },
    Habit {
        line: "P(_a) = 1;",
        says: "a name begins with a letter",
    },
    Habit {
        line: "-- a note",
        says: "a comment begins with #",
    },
    Habit {
        line: "P(a) = 1; -- a note",
        says: "a comment begins with #",
    },
    Habit {
        line: "% a note",
        says: "a comment begins with #",
    },
    Habit {
        line: "; a note",
        says: "a comment begins with #",
    },
    Habit {
        line: "// a note",
        says: "a comment begins with #",
    },
    Habit {
        line: "/* a note */",
        says: "a comment begins with #",
    },
    Habit {
        line: "qeury P(a);",
        says: "is query meant?",
    },
    Habit {
        line: "quer P(a);",
        says: "is query meant?",
    },
    Habit {
        line: "edn;",
        says: "is end meant?",
    },
    Habit {
        line: "end.",
        says: "a problem ends with end;",
    },
    Habit {
        line: "P(a) = 0.3.",
        says: "end each sentence and each query with ;",
    },
    Habit {
        line: "query P(a) = 0.3;",
        says: "a query states no value",
    },
    Habit {
        line: "query P(a given b) >= 0.3;",
        says: "a query states no value",
    },
    Habit {
        line: "P(a) = ?;",
        says: "to ask, write query P(a);",
    },
    Habit {
        line: "P(a)) = 1;",
        says: "no ( before this ) is open",
    },
    Habit {
        line: "query P(a));",
        says: "no ( before this ) is open",
    },
    Habit {
        line: "P(a) = −1;",
        says: "found `−` (U+2212)",
    },
    Habit {
        line: "P(a)\u{a0}= 1;",
        says: "found U+00A0, expected a word",
    },
    Habit {
        line: "P(a)\u{200b} = 1;",
        says: "found U+200B, expected a word",
    },
    Habit {
        line: "P(a) ＝ 1;",
        says: "found `＝` (U+FF1D), expected a word",
    },
    Habit {
        line: "P(a) = 1\u{37e}",
        says: "this is a Greek question mark: write ;",
    },
    Habit {
        line: "P(a) ≥ 1;",
        says: "write >= for \"at least\"\n",
    },
    Habit {
        line: "P(a) ≤ 1;",
        says: "write <= for \"at most\"\n",
    },
];

/// A line of a problem, and what the message about it says in each version: nothing where the line is
/// one of version 2.
pub(super) struct Sum {
    pub(super) line: &'static str,
    pub(super) one: &'static str,
    pub(super) two: Option<&'static str>,
}

// What the messages about sums say in version 1.
const BEGIN: &str = "begin the text with psat 2; for sums: P(a) + P(b) <= 1, or 2 P(a) - 1/3 P(b)";

/// Lines with sums and multiples of probabilities.
pub(super) const SUMS: [Sum; 19] = [
    Sum {
        line: "P(a) + P(b) <= 1;",
        one: BEGIN,
        two: None,
    },
    Sum {
        line: "P(a) - P(b) >= 0;",
        one: BEGIN,
        two: None,
    },
    Sum {
        line: "2 P(a) <= 1;",
        one: BEGIN,
        two: None,
    },
    Sum {
        line: "- P(a) <= 1;",
        one: BEGIN,
        two: None,
    },
    Sum {
        line: "2 * P(a) <= 1;",
        one: BEGIN,
        two: Some("write 2 P(a) for 2 * P(a)"),
    },
    Sum {
        line: "P(a) >= P(b);",
        one: "psat 2; and write P(a) - P(b) >= 0 for P(a) >= P(b)",
        two: Some("hint: write P(a) - P(b) >= 0 for P(a) >= P(b)"),
    },
    Sum {
        line: "P(a) >= 2 * P(b);",
        one: "psat 2; and write P(a) - 2 P(b) >= 0 for P(a) >= 2 * P(b)",
        two: Some("hint: write P(a) - 2 P(b) >= 0 for P(a) >= 2 * P(b)"),
    },
    Sum {
        line: "P(a) >= 2 P(b);",
        one: "psat 2; and write P(a) - 2 P(b) >= 0 for P(a) >= 2 * P(b)",
        two: Some("hint: write P(a) - 2 P(b) >= 0 for P(a) >= 2 * P(b)"),
    },
    Sum {
        line: "P(a) >= 0.5 * P(b);",
        one: "psat 2; and write P(a) - 2 P(b) >= 0 for P(a) >= 2 * P(b)",
        two: Some("hint: write P(a) - 2 P(b) >= 0 for P(a) >= 2 * P(b)"),
    },
    Sum {
        line: "P(a) >= 1/2 P(b);",
        one: "psat 2; and write P(a) - 2 P(b) >= 0 for P(a) >= 2 * P(b)",
        two: Some("hint: write P(a) - 2 P(b) >= 0 for P(a) >= 2 * P(b)"),
    },
    Sum {
        line: "P(a) >= 1 - P(b);",
        one: "psat 2; and write P(a) + P(b) >= 1 for P(a) >= 1 - P(b)",
        two: Some("hint: write P(a) + P(b) >= 1 for P(a) >= 1 - P(b)"),
    },
    Sum {
        line: "P(a) = 0.1 + 2 P(b);",
        one: "psat 2; and write P(a) + P(b) >= 1 for P(a) >= 1 - P(b)",
        two: Some("hint: write P(a) + P(b) >= 1 for P(a) >= 1 - P(b)"),
    },
    Sum {
        line: "P(a) * P(b) <= 1;",
        one: "probabilities aren't multiplied",
        two: Some("probabilities aren't multiplied"),
    },
    Sum {
        line: "P(a & b) / P(b) = 1;",
        one: "write P(a given b) for P(a & b) / P(b)",
        two: Some("write P(a given b) for P(a & b) / P(b)"),
    },
    Sum {
        line: "query P(a) + P(b);",
        one: "a query asks for one P(..)",
        two: Some("a query asks for one P(..)"),
    },
    Sum {
        line: "query 2 P(a);",
        one: "a query asks for one P(..)",
        two: Some("a query asks for one P(..)"),
    },
    Sum {
        line: "P(a given b) + P(c) <= 1;",
        one: "psat 2; and write P(a & c) - P(b & c) >= 0, with no given",
        two: Some("in a sum write P(a & c) - P(b & c)"),
    },
    Sum {
        line: "P(a) = P(b) + P(c);",
        one: "psat 2; and write P(a) - P(b) >= 0 for P(a) >= P(b)",
        two: Some("hint: write P(a) - P(b) >= 0 for P(a) >= P(b)"),
    },
    Sum {
        line: "P(a) × P(b) <= 1;",
        one: "probabilities aren't multiplied",
        two: Some("probabilities aren't multiplied"),
    },
];
