//! Words that say a world.
ghost use Rattle.std.specs.Prelude.{◌≡◌, ◌≢◌, [], ◌==◌, ◌↔◌, All, IfOk, IsTrue, map};
ghost use Rattle.ps_reader.specs.Truths.{IsTruth, IsWorldRead};

use crate::line_fault::LineFault;
use crate::words::is;
use ps_formula::{MOST_ATOMS, World};
use ps_io::NoMemory;
use std::alloc::Global;

/// A world of at most 128 atoms: a digit for each, or a dash where there is none.
pub(crate) fn world(alloc: Global, word: &[u8]) -> Result<World, LineFault>
    ensures { IsWorldRead word.now result }
{
    if is(word, b"-") {
        return Ok(World::new(alloc));
    }
    if word.is_empty() {
        return Err(LineFault::NotCanonical);
    }
    if are_truths(word) {
        few_truths(alloc, word)
    } else {
        Err(LineFault::NotCanonical)
    }
}

fn few_truths(alloc: Global, word: &[u8]) -> Result<World, LineFault>
    requires some { word.now ≢ [] }
    requires truths { All IsTruth word.now }
    ensures { IsWorldRead word.now result }
{
    if MOST_ATOMS < word.len() {
        return Err(LineFault::TooLarge);
    }
    Ok(truths(alloc, word)?)
}

fn are_truths(word: &[u8]) -> bool
    ensures { IsTrue result ↔ All IsTruth word.now }
{
    word.iter().all(|b| is_truth(*b))
}

fn is_truth(b: u8) -> bool
    ensures { IsTrue result ↔ IsTruth b }
{
    b == b'0' || b == b'1'
}

fn truths(alloc: Global, word: &[u8]) -> Result<World, NoMemory>
    ensures { IfOk result (λ w. w ≡ map (λ b. b == 49) word.now) }
{
    let mut world = World::new(alloc);
    for b in word {
        world.push(*b == b'1')?;
    }
    Ok(world)
}
