//! What there is to read in bytes: a call does nothing, and its clauses are the law.
ghost use Rattle.std.specs.Prelude.{ℕ, List};
ghost use Rattle.ps_read.specs.Readings.{HasOneReading, HasOneWholeReading};

/// There is one thing at most to read in some bytes: a problem at the front and the place behind
/// its text, or a refusal at a position; and so it is of all the bytes.
pub fn bytes_have_one_reading()
    ensures front { (bytes : List ℕ) → HasOneReading bytes }
    ensures whole { (bytes : List ℕ) → HasOneWholeReading bytes }
{}
