//! Laws about the definitions: a call does nothing, and its clauses are the law.
ghost use Rattle.ps_widening.specs.Laws.{BooksBoundWidenings, LeastWideningsBoundSums};

/// No distribution misses rows by less than the value of a Dutch book.
pub fn books_bound_widenings()
    ensures bound { BooksBoundWidenings }
{}

/// Where rows are widened so that a distribution meets them, the widenings sum to no less than the
/// least widening of a distribution.
pub fn least_widenings_bound_sums()
    ensures bound { LeastWideningsBoundSums }
{}
