//! What the part of a problem tells: a call does nothing, and its clauses are the law.
ghost use Rattle.std.specs.Prelude.{ℕ, List};
ghost use Rattle.ps_read.specs.Fronts.{IsReadAlone};

/// A problem that stands at the front of some bytes is what the bytes of its part spell alone.
pub fn problem_parts_read_alone()
    ensures { (bytes : List ℕ) (place : ℕ) → IsReadAlone bytes place }
{}
