//! Laws about the definitions: a call does nothing, and its clauses are the law.
ghost use Rattle.ps_claims.specs.EntailmentLaws.{NoLowerBoundIsAboveReached, NoUpperBoundIsBelowReached, ReachedValuesAreQuotients};

/// A bound that an allowed distribution reaches is the tightest one.
pub fn reached_bounds_are_tight()
    ensures lower { NoLowerBoundIsAboveReached }
    ensures upper { NoUpperBoundIsBelowReached }
{}

/// A distribution that gives the evidence a weight above 0 gives a query a value exactly where the
/// quotient of the two weights is the value.
pub fn reached_values_are_quotients()
    ensures reached { ReachedValuesAreQuotients }
{}
