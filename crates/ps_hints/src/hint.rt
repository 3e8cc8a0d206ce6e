//! Hints: what to write instead.
ghost use Rattle.std.specs.Prelude.{◌<◌, length};

use ps_text::Version;

/// A hint for an error that people really make.
#[derive(Clone, Copy)]
pub enum Hint {
    /// The text is empty.
    Empty,
    /// A byte-order mark stands at the front.
    ByteOrderMark,
    /// The text doesn't begin with its version.
    Begin,
    /// The text doesn't end with `end;`.
    End,
    /// Something stands behind `end;`.
    BehindEnd,
    /// `%`.
    Percent,
    /// `.5`.
    PointFirst,
    /// `1.`.
    PointLast,
    /// `0,5`.
    DecimalComma,
    /// `1e-3`.
    Exponent,
    /// `1 / 2`.
    BlankFraction,
    /// `-1`.
    Negative,
    /// A value above 1.
    AboveOne,
    /// `20 in 100`.
    Frequency,
    /// `1 - 0.3`.
    Arithmetic,
    /// `1_000`.
    Grouped,
    /// `0.3 +- 0.1`.
    Margin,
    /// Too many digits, or too great a denominator.
    Round,
    /// No number behind a relation.
    Number,
    /// No interval behind `in`.
    Interval,
    /// `0.2 <= P(a) <= 0.3`.
    Between,
    /// `:=`.
    Equals,
    /// `≤`.
    AtMostSign,
    /// `≥`.
    AtLeastSign,
    /// `P(a) + P(b)` or `2 P(a)`, in a text of this version.
    Sum(Version),
    /// `P(a) >= P(b)`.
    Compare(Version),
    /// `P(a) >= 2 * P(b)`.
    CompareTimes(Version),
    /// `P(a) >= 1 - P(b)`.
    LeftSide(Version),
    /// `2 * P(a)` in a linear sentence.
    Times,
    /// `P(a) * P(b)`.
    Product,
    /// `P(a & b) / P(b)`.
    Quotient,
    /// `given` in a linear sentence.
    GivenInSum(Version),
    /// `query P(a) + P(b)`.
    QuerySum,
    /// `P(a) - 1/2 >= 0`.
    NumberAlone,
    /// Two signs before a term.
    OneSign,
    /// A sign, or a number, without a probability behind it.
    Term,
    /// A number of a linear sentence that is too great.
    Divide,
    /// `query P(a) = 0.3`.
    QueryValue,
    /// `P(a) = ?`.
    Ask,
    /// `<`.
    AtMost,
    /// `>`.
    AtLeast,
    /// `==` for `=`.
    OneEquals,
    /// No relation behind a probability.
    Relation,
    /// An operator behind a probability.
    Outside,
    /// `not`.
    Not,
    /// `and`, or a comma.
    And,
    /// `&&`.
    OneAnd,
    /// `or`.
    Or,
    /// `||`.
    OneOr,
    /// `=>`.
    Implies,
    /// `xor`.
    Xor,
    /// `a = 1` in a formula.
    Equated,
    /// `==` or `<=>`.
    Iff,
    /// `<-`.
    Backwards,
    /// A second `given`.
    OneGiven,
    /// `givn`.
    GivenMeant,
    /// `qeury`.
    QueryMeant,
    /// `edn`.
    EndMeant,
    /// A `(` without its `)`.
    Unclosed,
    /// A `)` without its `(`.
    Unopened,
    /// Two operands side by side.
    Joined,
    /// A formula is missing.
    Operand,
    /// A reserved word as a name.
    Reserved,
    /// A name that begins with a digit.
    DigitFirst,
    /// `0` or `1` as a formula.
    Truth,
    /// A `-` in a name.
    Hyphen,
    /// A letter beyond ASCII.
    Letters,
    /// A no-break space, or another blank that isn't plain.
    Blank,
    /// A character of no width.
    Unseen,
    /// A sign or letter of full width.
    FullWidth,
    /// The Greek question mark, which looks as `;`.
    GreekQuestion,
    /// A text in UTF-16.
    Wide,
    /// Lines that end with a carriage return alone.
    LoneReturn,
    /// A quote.
    Quote,
    /// A name that is too long.
    Short,
    /// `//`.
    Comment,
    /// `Pr(a)`.
    Probability,
    /// `Query`.
    SmallLetters,
    /// An item that begins with something else.
    Item,
    /// `;;`.
    OneSemicolon,
    /// A missing `;`.
    Semicolon,
    /// Too many nestings.
    Nesting,
    /// Too many atoms.
    Atoms,
    /// Too many formulas.
    Formulas,
    /// Too many bounds.
    Bounds,
    /// Too many queries.
    Queries,
    /// Too many terms.
    Terms,
    /// Whole numbers of a linear sentence that are too large.
    Large,
}

// What to write for a sum.
fn sum_text(version: Version) -> &'static str
    ensures { 0 < length result.now }
{
    match version {
        Version::One =>
            "begin the text with psat 2; for sums: P(a) + P(b) <= 1, or 2 P(a) - 1/3 P(b) >= 1/2",
        Version::Two => "write sums so: P(a) + P(b) <= 1, or 2 P(a) - 1/3 P(b) >= 1/2",
    }
}

// What to write for a comparison of two probabilities.
fn compare_text(version: Version) -> &'static str
    ensures { 0 < length result.now }
{
    match version {
        Version::One => "begin the text with psat 2; and write P(a) - P(b) >= 0 for P(a) >= P(b)",
        Version::Two => "write P(a) - P(b) >= 0 for P(a) >= P(b)",
    }
}

// What to write for a comparison with a multiple.
fn compare_times_text(version: Version) -> &'static str
    ensures { 0 < length result.now }
{
    match version {
        Version::One =>
            "begin the text with psat 2; and write P(a) - 2 P(b) >= 0 for P(a) >= 2 * P(b)",
        Version::Two => "write P(a) - 2 P(b) >= 0 for P(a) >= 2 * P(b)",
    }
}

// What to write for a comparison with a sum.
fn left_side_text(version: Version) -> &'static str
    ensures { 0 < length result.now }
{
    match version {
        Version::One =>
            "begin the text with psat 2; and write P(a) + P(b) >= 1 for P(a) >= 1 - P(b)",
        Version::Two => "write P(a) + P(b) >= 1 for P(a) >= 1 - P(b)",
    }
}

// What to write for a comparison of two probabilities with the same condition.
fn given_in_sum_text(version: Version) -> &'static str
    ensures { 0 < length result.now }
{
    match version {
        Version::One =>
            "begin the text with psat 2; and write P(a & c) - P(b & c) >= 0, with no given",
        Version::Two => "in a sum write P(a & c) - P(b & c) >= 0 for P(a given c) >= P(b given c)",
    }
}

impl Hint {
    /// The hint's words.
    pub fn text(self) -> &'static str
        ensures { 0 < length result.now }
    {
        match self {
            Hint::Empty => "the text is empty: a problem begins with psat 1; and ends with end;",
            Hint::ByteOrderMark =>
                "a byte-order mark stands at the front: save the file without it",
            Hint::Begin => "a problem begins with psat 1; or psat 2;",
            Hint::End => "a problem ends with end;",
            Hint::BehindEnd => "nothing but comments may stand behind end;",
            Hint::Percent => "write 0.3 or 30/100 for 30%",
            Hint::PointFirst => "write a 0 before the point: 0.5",
            Hint::PointLast => "write a digit behind the point, or no point: 1.0 or 1",
            Hint::DecimalComma => "a decimal has a point: 0.5",
            Hint::Exponent => "a number has no exponent: write 0.001 or 1/1000",
            Hint::BlankFraction => "write a fraction without blanks: 1/2",
            Hint::Negative => "no value is below 0; write -> for \"implies\" and ! for \"not\"",
            Hint::AboveOne => "a probability is at most 1: write 0.3 or 30/100 for 30 per cent",
            Hint::Frequency => "write 20/100 for 20 in 100",
            Hint::Arithmetic => "write the value itself: 0.7 for 1 - 0.3",
            Hint::Grouped => "write the digits of a number side by side: 1/1000",
            Hint::Margin => "write an interval: in [0.2, 0.4] for 0.3 +- 0.1",
            Hint::Round => "round it, or write an interval: in [0.333333, 0.333334]",
            Hint::Number => "write a number here: 0.5 or 1/2",
            Hint::Interval => "write an interval as in [1/4, 1/2]",
            Hint::Between =>
                "write P(a) in [0.2, 0.3] for 0.2 <= P(a) <= 0.3, and P(a) >= 0.2 for 0.2 <= P(a)",
            Hint::Equals => "write = and the value: P(a) = 0.3",
            Hint::AtMostSign => "write <= for \"at most\"",
            Hint::AtLeastSign => "write >= for \"at least\"",
            Hint::Sum(version) => sum_text(version),
            Hint::Compare(version) => compare_text(version),
            Hint::CompareTimes(version) => compare_times_text(version),
            Hint::LeftSide(version) => left_side_text(version),
            Hint::Times => "write 2 P(a) for 2 * P(a)",
            Hint::Product => "probabilities aren't multiplied: P(a & b) is the probability of both",
            Hint::Quotient => "write P(a given b) for P(a & b) / P(b), and 1/2 P(a) for P(a) / 2",
            Hint::GivenInSum(version) => given_in_sum_text(version),
            Hint::QuerySum => "a query asks for one P(..): ask for each by itself",
            Hint::NumberAlone =>
                "a number without P(..) stands behind the relation: P(a) - P(b) >= 1/2",
            Hint::OneSign => "one sign stands before a term",
            Hint::Term => "write P(..) here, perhaps with a number before it: 2 P(a) or 1/3 P(a)",
            Hint::Divide => "divide all numbers of the sentence by the same number",
            Hint::QueryValue => "a query states no value: write query P(a); or leave out query",
            Hint::Ask => "to ask, write query P(a);",
            Hint::AtMost => "write <= for \"at most\": no bound is strict",
            Hint::AtLeast => "write >= for \"at least\": no bound is strict",
            Hint::OneEquals => "one = is enough",
            Hint::Relation =>
                "write =, >=, <= or in [.., ..] and a value; to ask, write query before P",
            Hint::Outside => "write this inside of the parentheses: P(a -> b)",
            Hint::Not => "write ! for \"not\"",
            Hint::And => "write & for \"and\"",
            Hint::OneAnd => "one & is enough",
            Hint::Or => "write | for \"or\"",
            Hint::OneOr => "one | is enough",
            Hint::Implies => "write -> for \"implies\"",
            Hint::Xor => "write !(a <-> b) for a xor b",
            Hint::Equated => "write a for a = 1, and !a for a = 0",
            Hint::Iff => "write <-> for \"if and only if\"",
            Hint::Backwards => "write b -> a for a <- b",
            Hint::OneGiven =>
                "one given may stand, outside of inner parentheses: join conditions by &",
            Hint::GivenMeant => "is given meant? a condition is written so: P(a given b)",
            Hint::QueryMeant => "is query meant?",
            Hint::EndMeant => "is end meant?",
            Hint::Unclosed => "a ( before this isn't closed",
            Hint::Unopened => "no ( before this ) is open",
            Hint::Joined => "write &, |, -> or <-> between two formulas, and a name without blanks",
            Hint::Operand => "write a name, true, false, ! or ( here",
            Hint::Reserved => "this word is reserved: take another name",
            Hint::DigitFirst => "a name begins with a letter",
            Hint::Truth => "write true for 1 and false for 0",
            Hint::Hyphen => "a name has letters, digits and _, but no -",
            Hint::Letters => "a name has the letters a to z and A to Z, digits and _",
            Hint::Blank => "this is no plain blank: write a space",
            Hint::Unseen => "this character can't be seen: delete it",
            Hint::FullWidth => "this is a letter or sign of full width: write a plain one",
            Hint::GreekQuestion => "this is a Greek question mark: write ;",
            Hint::Wide => "zero bytes or a mark of UTF-16 stand here: save the file as UTF-8",
            Hint::LoneReturn =>
                "lines end with a carriage return alone: save the file with line feeds",
            Hint::Quote => "write names without quotes",
            Hint::Short => "write a shorter name",
            Hint::Comment => "a comment begins with # and ends with its line",
            Hint::Probability => "write a probability as P(..)",
            Hint::SmallLetters =>
                "write psat, given, in, query, end, true and false in small letters",
            Hint::Item => "begin a sentence with P(, and a query with query P(",
            Hint::OneSemicolon => "one ; is enough",
            Hint::Semicolon => "end each sentence and each query with ;",
            Hint::Nesting => "leave out parentheses, or name a part: P(part <-> ..) = 1;",
            Hint::Atoms => "leave out what no query needs",
            Hint::Formulas => "write a formula the same way each time",
            Hint::Bounds => "join laws by & in one sentence; an interval counts as two bounds",
            Hint::Queries => "ask in several files",
            Hint::Terms => "where a and b exclude each other, write P(a | b) for P(a) + P(b)",
            Hint::Large =>
                "round them: over a denominator of at most 1000000 they sum to at most 2000000",
        }
    }
}
