//! How much there is of a problem and of the answer to it, as an object.
ghost use Rattle.ps_spoken.specs.Numbers.{Says};
ghost use Rattle.ps_spoken.specs.Counts.{bounds_members, count_text, counts_object};
ghost use Rattle.ps_spoken.specs.Counts.{sentences_members};

use crate::numbers::{append, number};
use ps_io::NoMemory;
use ps_problem::Problem;

// Writes a count behind its name.
#[tactic(auto, unfolding(crate::specs::Counts::count_text))]
fn write_count(out: &mut Vec<u8>, name: &[u8], count: i128) -> Result<(), NoMemory>
    ensures { Says result out.old.items out.new.items (count_text name.now count) }
{
    append(out, name)?;
    number(out, count)
}

// Writes how many atoms and sentences a problem has.
#[tactic(auto, unfolding(crate::specs::Counts::sentences_members))]
fn write_sentences(out: &mut Vec<u8>, problem: &Problem) -> Result<(), NoMemory>
    ensures { Says result out.old.items out.new.items (sentences_members problem.now) }
{
    write_count(out, b"{\"atoms\":", i128::from(problem.atoms()))?;
    let sentences = problem.sentences().len() as i128;
    write_count(out, b",\"sentences\":", sentences)
}

// Writes how many bounds and queries it has.
#[tactic(auto, unfolding(crate::specs::Counts::bounds_members))]
fn write_bounds(out: &mut Vec<u8>, problem: &Problem) -> Result<(), NoMemory>
    ensures { Says result out.old.items out.new.items (bounds_members problem.now) }
{
    write_count(out, b",\"bounds\":", i128::from(problem.bounds()))?;
    let queries = problem.queries().len() as i128;
    write_count(out, b",\"queries\":", queries)
}

/// Writes how many atoms, sentences, bounds and queries a problem has, and how much is open.
#[tactic(auto, unfolding(crate::specs::Counts::counts_object))]
pub fn write_counts(out: &mut Vec<u8>, problem: &Problem, unfinished: i128) -> Result<(), NoMemory>
    ensures { Says result out.old.items out.new.items (counts_object problem.now unfinished) }
{
    write_sentences(out, problem)?;
    write_bounds(out, problem)?;
    write_count(out, b",\"open\":", unfinished)?;
    append(out, b"}")
}
