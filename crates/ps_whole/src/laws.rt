//! The laws of rows of whole numbers. A call does nothing: its contract is the law.

ghost use Rattle.ps_whole.specs.Laws.{RowLaws};

/// The laws.
pub fn row_laws()
    ensures laws { RowLaws }
{}
