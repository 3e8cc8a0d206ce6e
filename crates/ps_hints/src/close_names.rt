//! Names that are close to one another.
ghost use Rattle.std.specs.Prelude.{◌≡◌, IfOk, IfSome, IsTrue, Some, slice_get};
ghost use Rattle.ps_hints.specs.Names.{edits, AreClose, IsMeantBy};

use crate::mistypes::{differ_in_part, differing_letters};
use crate::uses::Uses;
use ps_io::NoMemory;
use ps_problem::Problem;
use std::alloc::Global;
use strsim::osa_distance;

// The least letters of a name, or of its part between `_`, of which one may be wrong, and of which
// two may.
const LEAST_FOR_ONE: usize = 3;

const LEAST_FOR_TWO: usize = 8;

// A name without its digits.
fn without_digits(alloc: Global, name: &str) -> Result<String, NoMemory> {
    let mut letters = String::new(alloc);
    for c in name.chars() {
        if !c.is_ascii_digit() {
            letters.push(c)?;
        }
    }
    Ok(letters)
}

// Whether two names are the same but for their digits, as `x1` and `x2`.
fn are_numbered(alloc: Global, name: &str, other: &str) -> Result<bool, NoMemory> {
    let name = without_digits(alloc, name)?;
    let other = without_digits(alloc, other)?;
    Ok(name.as_str() == other.as_str())
}

// How many edits lead from one name to another, where a swap of neighbours is one.
#[tactic(auto, unfolding(crate::specs::Names::edits))]
fn edits_between(alloc: Global, name: &str, other: &str) -> Result<usize, NoMemory>
    ensures { IfOk result (λ n. n ≡ edits name.now other.now) }
{
    Ok(osa_distance(alloc, name, other)?)
}

// Whether one name may be meant by the other: one edit or swap leads from one to the other, or two
// where they are long, and they differ in more than digits and in less than a part between `_`.
fn are_close(alloc: Global, name: &str, other: &str) -> Result<bool, NoMemory>
    ensures { IfOk result (λ b. IsTrue b → AreClose name.now other.now) }
{
    let letters = differing_letters(name.as_bytes(), other.as_bytes());
    let is_near = match edits_between(alloc, name, other)? {
        1 => letters >= LEAST_FOR_ONE,
        2 => letters >= LEAST_FOR_TWO,
        _ => false,
    };
    Ok(
        is_near
            && !differ_in_part(name.as_bytes(), other.as_bytes())
            && !are_numbered(alloc, name, other)?,
    )
}

// The name of an atom, as text.
fn name_of(problem: &Problem, atom: u16) -> Option<&str>
    ensures { IfSome result (λ name. slice_get problem.now.names atom ≡ Some name.now) }
{
    str::from_utf8(problem.name(atom)?).ok()
}

// Whether a name is used more than once, or comes before a name that is used once.
fn is_less_rare(bytes: &[u8], name: &str, comes_before: bool) -> bool {
    comes_before || Uses::of(bytes, name.as_bytes()).count > 1
}

/// The first name that may be meant by an atom's, which is used once in the text: one that is used
/// more often, or comes before it.
#[tactic(auto, using(crate::proofs::Meant::meant))]
pub(crate) fn close_name<'p>(
    alloc: Global,
    bytes: &[u8],
    problem: &'p Problem,
    atom: u16,
) -> Result<Option<&'p [u8]>, NoMemory>
    ensures { IfOk result (λ r. IfSome r (λ meant. IsMeantBy problem.now.names atom meant.now)) }
{
    let Some(name) = name_of(problem, atom) else {
        return Ok(None);
    };
    for other in 0..problem.atoms() {
        if let Some(meant) = name_of(problem, other) {
            if other != atom
                && are_close(alloc, name, meant)?
                && is_less_rare(bytes, meant, other < atom)
            {
                return Ok(Some(meant.as_bytes()));
            }
        }
    }
    Ok(None)
}
