//! Numbers and worlds that look drawn by chance.
ghost use Rattle.std.specs.Prelude.{◌≡◌, ◌<◌, length, IfOk};

use ps_formula::World;
use ps_io::NoMemory;
use std::alloc::Global;

/// A sequence of numbers that look drawn by chance, the same in each run from the same seed. Method:
/// SplitMix64, G. L. Steele, D. Lea and C. H. Flood 2014.
#[derive(Clone, Copy, Debug)]
pub struct Draw {
    state: u64,
}

impl Draw {
    /// The sequence of a seed.
    pub fn new(seed: u64) -> Draw {
        Draw { state: seed }
    }

    /// The next number, of 64 bits.
    pub fn next(&mut self) -> u64 {
        self.state = self.state.wrapping_add(0x9e37_79b9_7f4a_7c15);
        let first = (self.state ^ (self.state >> 30)).wrapping_mul(0xbf58_476d_1ce4_e5b9);
        let second = (first ^ (first >> 27)).wrapping_mul(0x94d0_49bb_1331_11eb);
        second ^ (second >> 31)
    }

    /// The next number, brought below a bound.
    pub fn below(&mut self, bound: u64) -> u64
        requires { 0 < bound }
        ensures { result < bound }
    {
        self.next() % bound
    }
}

/// A world of so many atoms, each true or false by the next number.
pub fn drawn_world(alloc: Global, draw: &mut Draw, atoms: usize) -> Result<World, NoMemory>
    ensures { IfOk result (λ w. length w ≡ atoms) }
{
    let mut world = World::new(alloc);
    for _ in 0..atoms {
        world.push(draw.next() & 1 == 1)?;
    }
    Ok(world)
}
