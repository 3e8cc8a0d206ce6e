//! Where the bounds of a problem stand.
ghost use Rattle.std.specs.Prelude.{◌≡◌, ◌≤◌, ◌++◌, IfOk, OnOk, length};
ghost use Rattle.ps_problem.specs.declared.limits.TheConstants.{MOST_BOUNDS};
ghost use Rattle.ps_support.specs.Places.{places_in, places_of};

use ps_io::{List, NoMemory};
use ps_problem::Sentence;
use std::alloc::Global;

/// Which number of its sentence a bound is about.
#[derive(Clone, Copy, PartialEq, Eq, Debug)]
pub enum End {
    /// Its only one.
    Only,
    /// The lower one of an interval.
    Lower,
    /// The upper one of an interval.
    Upper,
}

/// Where a bound stands.
#[derive(Clone, Copy, PartialEq, Eq, Debug)]
pub struct BoundPlace {
    /// The number of its sentence, from 1.
    pub sentence: u32,
    /// Which number of the sentence it is about.
    pub end: End,
}

// Notes the places of so many bounds of a sentence: of an interval there are two.
fn push_places(places: &mut List<BoundPlace>, sentence: u32, bounds: u32) -> Result<(), NoMemory>
    ensures { OnOk result (places.new ≡ places.old ++ places_of sentence bounds) }
{
    if bounds != 2 {
        return places.push(BoundPlace {
            sentence,
            end: End::Only,
        });
    }
    places.push(BoundPlace {
        sentence,
        end: End::Lower,
    })?;
    places.push(BoundPlace {
        sentence,
        end: End::Upper,
    })
}

/// Where each bound of sentences stands, in order.
#[tactic(auto, using(crate::proofs::Loops::places_next, crate::proofs::Loops::places_all))]
pub(crate) fn bound_places(
    alloc: Global,
    sentences: &[Sentence],
) -> Result<List<BoundPlace>, NoMemory>
    requires { length sentences.now ≤ MOST_BOUNDS }
    ensures { IfOk result (λ places. places ≡ places_in 1 sentences.now) }
{
    let mut places = List::new(alloc);
    for i in 0..sentences.len() {
        push_places(&mut places, i as u32 + 1, sentences[i].bounds())?;
    }
    Ok(places)
}
