//! The rows of kept sentences.
ghost use Rattle.std.specs.Prelude.{◌≡◌, ◌++◌, ◌∷◌, [], IfOk, OnOk};
ghost use Rattle.ps_problem.specs.Rows.{HasSmallRights, rows_in};
ghost use Rattle.ps_runs.specs.Kept.{IsChoice, kept_of};

use ps_io::{List, NoMemory};
use ps_problem::{Problem, Row, Sentence, push_rows};
use std::alloc::Global;

/// Puts the rows of a sentence's bounds behind those before them, where it is kept.
fn push_kept(
    alloc: Global,
    rows: &mut List<Row>,
    kept: bool,
    sentence: &Sentence,
) -> Result<(), NoMemory>
    requires { HasSmallRights sentence.now }
    ensures { OnOk result
        (rows.new ≡ rows.old ++ rows_in (kept_of (kept ∷ []) (sentence.now ∷ []))) }
{
    if kept {
        return push_rows(alloc, rows, sentence);
    }
    Ok(())
}

/// The rows of the bounds of the kept sentences, by a truth value for each sentence.
#[tactic(auto, using(crate::proofs::KeptRows::rows_next))]
pub fn kept_rows(alloc: Global, problem: &Problem, kept: &[bool]) -> Result<List<Row>, NoMemory>
    requires { IsChoice kept.now problem.now }
    ensures { IfOk result (λ rows. rows ≡ rows_in (kept_of kept.now problem.now.sentences)) }
{
    // Called for its clauses: the numbers of the problem are in range.
    let _sound = problem.rows();
    let sentences = problem.sentences().as_slice();
    let mut rows = List::new(alloc);
    for i in 0..sentences.len() {
        push_kept(alloc, &mut rows, kept[i], &sentences[i])?;
    }
    Ok(rows)
}
