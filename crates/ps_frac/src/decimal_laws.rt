//! The law of decimals. A call does nothing: its contract is the law.
ghost use Rattle.ps_frac.specs.DecimalLaws.{DecimalsContainTheirFraction};

/// A fraction lies between the decimals of as many digits as one likes, rounded down and up, and
/// these are the nearest ones.
pub fn decimals_contain_their_fraction()
    ensures contain { DecimalsContainTheirFraction }
{}
