//! Duals of the kept bounds, as duals of the whole problem.
ghost use Rattle.std.specs.Prelude.{◌≡◌, ◌<◌, ◌≤◌, ◌++◌, ◌∷◌, [], pos, get_or, length};
ghost use Rattle.std.specs.Prelude.{IfOk, OnOk};
ghost use Rattle.ps_runs.specs.Kept.{flags_of};
ghost use Rattle.ps_generation.specs.Spreading.{next_for, number_for, spread_of};

use ps_answer::Dual;
use ps_io::{List, NoMemory};
use ps_problem::Sentence;
use std::alloc::Global;

/// Adds whether a sentence is kept, for each of its bounds.
fn push_flags(flags: &mut List<bool>, kept: bool, sentence: &Sentence) -> Result<(), NoMemory>
    ensures { OnOk result (flags.new ≡ flags.old ++ flags_of (kept ∷ []) (sentence.now ∷ [])) }
{
    for _ in 0..sentence.bounds() {
        flags.push(kept)?;
    }
    Ok(())
}

/// Whether each bound is kept, by a truth value for each sentence.
pub(crate) fn flags_of(
    alloc: Global,
    sentences: &[Sentence],
    kept: &[bool],
) -> Result<List<bool>, NoMemory>
    requires { length kept.now ≡ length sentences.now }
    ensures { IfOk result (λ flags. flags ≡ flags_of kept.now sentences.now) }
{
    let mut flags = List::new(alloc);
    for i in 0..sentences.len() {
        push_flags(&mut flags, kept[i], &sentences[i])?;
    }
    Ok(flags)
}

/// The number at a place, and 0 past the end.
fn number_at(rows: &[i128], place: usize) -> i128
    ensures { result ≡ get_or rows.now place (pos 0) }
{
    if place < rows.len() { rows[place] } else { 0 }
}

/// Adds the number of a bound, and answers the place of the next one that is kept.
fn push_number(
    all: &mut List<i128>,
    flags: &[bool],
    i: usize,
    rows: &[i128],
    next: usize,
) -> Result<usize, NoMemory>
    requires inside { i < length flags.now }
    requires before { next ≤ i }
    ensures pushed { OnOk result
        (all.new ≡ all.old ++ number_for flags.now i rows.now next ∷ []) }
    ensures next { IfOk result (λ n. n ≡ next_for flags.now i next) }
{
    if flags[i] {
        all.push(number_at(rows, next))?;
        return Ok(next + 1);
    }
    all.push(0)?;
    Ok(next)
}

/// The multipliers of all bounds: in order those of the kept ones, and 0 for each other.
pub(crate) fn spread(alloc: Global, flags: &[bool], rows: &[i128]) -> Result<List<i128>, NoMemory>
    ensures { IfOk result (λ all. all ≡ spread_of flags.now rows.now) }
{
    let mut all = List::new(alloc);
    let mut next = 0;
    for i in 0..flags.len() {
        next = push_number(&mut all, flags, i, rows, next)?;
    }
    Ok(all)
}

/// A dual with other multipliers of the bounds.
pub(crate) fn with_rows(dual: Dual, rows: List<i128>) -> Dual
    ensures { result ≡ record dual { rows = rows } }
{
    Dual {
        top: dual.top,
        head: dual.head,
        rows,
        steps: dual.steps,
    }
}
