//! Laws of what is shown.
ghost use Rattle.ps_ask.specs.Decimals.{BoundsHaveDecimals};
ghost use Rattle.ps_ask.specs.Reached.{ReachedValuesBound};

/// Each bound of an answer that is shown is a number from 0 to 1 with a denominator that isn't too
/// great: so its decimals are written, and never the sign that stands in their place.
pub fn bounds_have_decimals()
    ensures decimals { BoundsHaveDecimals }
{}

/// The greatest lower bound of a query lies between 0 and the least value that is reached, and its
/// least upper bound between the greatest value that is reached and 1.
pub fn reached_values_bound()
    ensures bound { ReachedValuesBound }
{}
