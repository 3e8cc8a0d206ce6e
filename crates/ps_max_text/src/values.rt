//! The values of the variables, as a word spells them.
ghost use Rattle.std.specs.Prelude.{◌≡◌, ◌≢◌, [], ◌==◌, ◌↔◌, All, IfOk, IsTrue, map};
ghost use Rattle.ps_reader.specs.Truths.{IsTruth};
ghost use Rattle.ps_max_text.specs.Read.{AreValuesRead};

use crate::item_reader::is;
use ps_formula::World;
use ps_io::NoMemory;
use ps_pb::MOST_VARIABLES;
use ps_reader::LineFault;
use std::alloc::Global;

/// The values of at most 1,024 variables: a digit for each, or a dash where there is none.
pub(crate) fn values_of(alloc: Global, word: &[u8]) -> Result<World, LineFault>
    ensures { AreValuesRead word.now result }
{
    if is(word, b"-") {
        return Ok(World::new(alloc));
    }
    if word.is_empty() {
        return Err(LineFault::NotCanonical);
    }
    if are_truths(word) {
        few_values(alloc, word)
    } else {
        Err(LineFault::NotCanonical)
    }
}

fn few_values(alloc: Global, word: &[u8]) -> Result<World, LineFault>
    requires some { word.now ≢ [] }
    requires truths { All IsTruth word.now }
    ensures { AreValuesRead word.now result }
{
    if word.len() > MOST_VARIABLES as usize {
        return Err(LineFault::TooLarge);
    }
    Ok(truths(alloc, word)?)
}

fn are_truths(word: &[u8]) -> bool
    ensures { IsTrue result ↔ All IsTruth word.now }
{
    word.iter().all(|b| is_truth(*b))
}

fn is_truth(b: u8) -> bool
    ensures { IsTrue result ↔ IsTruth b }
{
    b == b'0' || b == b'1'
}

fn truths(alloc: Global, word: &[u8]) -> Result<World, NoMemory>
    ensures { IfOk result (λ w. w ≡ map (λ b. b == 49) word.now) }
{
    let mut world = World::new(alloc);
    for b in word {
        world.push(*b == b'1')?;
    }
    Ok(world)
}
