//! The laws that contracts of other crates rest on. A call does nothing: its contract is the law.

ghost use Rattle.std.specs.Prelude.{◌≡◌, ◌≢◌};
ghost use Rattle.ps_meaning.specs.Rational.{Rational, add, mul, neg, zero_q, one_q, inverse};
ghost use Rattle.ps_meaning.specs.Laws.{CommutativeRing, IsOrdered, SumsOfRationals, WeightedSums};
ghost use Rattle.ps_meaning.specs.Rows.{BoundsAreRows};
ghost use Rattle.ps_meaning.specs.Laws.{CommonMultiples, ScaledNumbers, ZerosAreNarrow};

/// The rational numbers are a field.
pub fn field_laws()
    ensures ring { CommutativeRing add mul neg zero_q one_q }
    ensures inverses { (x : Rational) → x ≢ zero_q → mul x (inverse x) ≡ one_q }
    ensures apart { one_q ≢ zero_q }
{}

/// Their order is total, and sums and products keep it.
pub fn order_laws()
    ensures ordered { IsOrdered }
{}

/// Sums of rational numbers.
pub fn sum_laws()
    ensures sums { SumsOfRationals }
{}

/// Weighted sums of signed whole numbers over lists.
pub fn weighted_sum_laws<A, B>()
    ensures sums { WeightedSums A B }
{}

/// The least common multiple of two numbers, and of numbers one after the other, divides each of
/// their common multiples.
pub fn lcm_laws()
    ensures multiples { CommonMultiples }
{}

/// A rational number times a multiple of its denominator is a whole number.
pub fn scaled_laws()
    ensures scaled { ScaledNumbers }
{}

/// Products with 0, and sums and differences of a fraction and 0, are never refused.
pub fn zero_laws()
    ensures narrow { ZerosAreNarrow }
{}

/// A bound, plain or linear, is met by exactly the distributions that meet its row.
pub fn row_laws()
    ensures rows { BoundsAreRows }
{}
