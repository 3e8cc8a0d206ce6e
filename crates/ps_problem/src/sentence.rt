//! Sentences of a problem.
ghost use Rattle.std.specs.Prelude.{◌≡◌, ◌≤◌, length, option_map, slice_get};
ghost use Rattle.ps_problem.specs.Problems.{right_at, side_at, bounds_in, bounds_of_sentence};
ghost use Rattle.ps_problem.specs.Shown.{shown};

use crate::{Bound, BoundAt, Side};
use ps_io::List;

/// The terms of a linear sentence: the nodes of formulas, each with its coefficient times the scale.
pub type LinearTerms = List<(u32, i64)>;

/// The sum of the probabilities of formulas, each times a whole number, against a whole number: the
/// numbers of a sentence times its scale. An interval has an upper value, and is at least the right
/// side and at most that.
#[derive(Debug, Drop)]
pub struct Linear {
    /// The terms in order: at least one, and at most `MOST_TERMS` of `ps_text`.
    pub terms: LinearTerms,
    /// The least common multiple of the denominators of the coefficients and right sides, at most
    /// `GREATEST_SCALE`.
    pub scale: u32,
    /// Whether the sum is at least, at most or exactly the right side; of an interval at least.
    pub side: Side,
    /// The right side.
    pub right: i64,
    /// The upper right side, exactly for an interval.
    pub upper: Option<i64>,
}

impl Linear {
    /// The side of the upper bound of an interval, or that of the sentence.
    pub fn side_of(&self, upper: bool) -> Side
        ensures { result ≡ side_at self.now upper }
    {
        if upper { Side::AtMost } else { self.side }
    }

    /// The upper right side of an interval, or the right side.
    pub fn right_of(&self, upper: bool) -> i64
        ensures { result ≡ right_at self.now upper }
    {
        if upper {
            self.upper.unwrap_or(self.right)
        } else {
            self.right
        }
    }
}

/// A sentence: one bound, or the two of an interval.
#[derive(Debug, Drop)]
pub enum Sentence {
    /// A bound on one probability; of an interval `first` is at least and `second` at most, over the
    /// same formula and condition.
    Plain { first: Bound, second: Option<Bound> },
    /// A bound on a sum of probabilities.
    Linear(Linear),
}

impl Sentence {
    /// The number of bounds: 1, or 2 of an interval.
    pub fn bounds(&self) -> u32
        ensures count { result ≡ length (bounds_of_sentence self.now) }
        ensures few { result ≤ 2 }
    {
        let is_interval = match self {
            Sentence::Plain { second, .. } => second.is_some(),
            Sentence::Linear(linear) => linear.upper.is_some(),
        };
        if is_interval { 2 } else { 1 }
    }

    /// A bound by its number from 0; `None` where there is no such bound.
    pub fn bound(&self, i: u32) -> Option<BoundAt<'_>>
        ensures { option_map shown result ≡ slice_get (bounds_of_sentence self.now) i }
    {
        match self {
            Sentence::Plain { first, second } => match i {
                0 => Some(BoundAt::Plain(first)),
                1 => second.as_ref().map(BoundAt::Plain),
                _ => None,
            },
            Sentence::Linear(of) => match i {
                0 => Some(BoundAt::Linear { of, upper: false }),
                1 if of.upper.is_some() => Some(BoundAt::Linear { of, upper: true }),
                _ => None,
            },
        }
    }
}

/// Sentences in order.
pub type Sentences = List<Sentence>;

/// A bound by its number from 0, over sentences in order; `None` where there is no such bound.
pub(crate) fn bound_in(sentences: &[Sentence], i: u32) -> Option<BoundAt<'_>>
    ensures { option_map shown result ≡ slice_get (bounds_in sentences.now) i }
{
    let mut place = i;
    for sentence in sentences {
        let count = sentence.bounds();
        if place < count {
            return sentence.bound(place);
        }
        place -= count;
    }
    None
}
