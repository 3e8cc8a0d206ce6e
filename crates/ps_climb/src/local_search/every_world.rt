//! A look at every world.
ghost use Rattle.std.specs.Prelude.{◌≡◌, length, IfOk, IfSome};

use crate::goal::Goal;
use crate::local_search::LocalSearch;
use crate::neighbours::{Worlds, has_bit};
use ps_formula::World;
use ps_io::NoMemory;

/// The atoms of which a block has all worlds.
const BLOCK_ATOMS: usize = 7;

/// The most atoms whose worlds are all looked at.
const MOST_ATOMS: usize = 20;

/// The world of the greatest value, of those offered so far.
#[derive(Clone, Copy)]
struct Greatest {
    number: u32,
    value: f64,
}

impl Greatest {
    /// Offers the worlds of a block, by how much more each has than the first.
    fn offer(&mut self, block: u32, first_value: f64, gains: &[f64]) {
        let first = block.saturating_mul(128);
        let least = self.value - first_value;
        let mut most = least;
        for (number, gain) in (first..u32::MAX).zip(gains) {
            if *gain > most {
                most = *gain;
                self.number = number;
            }
        }
        if most > least {
            self.value = first_value + most;
        }
    }
}

/// How many blocks have all worlds of so many atoms.
fn blocks_of(atoms: usize) -> u32 {
    if atoms <= BLOCK_ATOMS {
        return 1;
    }
    if atoms > MOST_ATOMS {
        return 0;
    }
    1 << (atoms - BLOCK_ATOMS)
}

/// The atom in which the block of this count differs from the one before.
fn turned_atom(count: u32) -> u16 {
    let number = count.trailing_zeros().saturating_add(BLOCK_ATOMS as u32);
    u16::try_from(number).unwrap_or(u16::MAX)
}

/// Writes the values of the atoms in the world of a number.
fn write_world(values: &mut [bool], number: u32) {
    for (atom, value) in (0..u32::MAX).zip(values.iter_mut()) {
        *value = has_bit(number, atom);
    }
}

impl LocalSearch {
    /// The best of all worlds, where it meets the demands and is above the threshold. Each world is
    /// looked at, so this is for few atoms: of more than 20 only 128 worlds are. Further atoms are as in
    /// the world that is given.
    pub fn best(&mut self, goal: Goal<'_>, further: &World) -> Result<Option<World>, NoMemory>
        ensures { IfOk result (λ found. IfSome found (λ w. length w ≡ length further.now)) }
    {
        self.begin(goal, further)?;
        let number = self.greatest();
        write_world(&mut self.best, number);
        self.best_world(goal, further)
    }

    /// The number of the world of the greatest value. Each block differs from the one before in one
    /// atom, so that only what is made of it is looked at again (F. Gray, 1953).
    fn greatest(&mut self) -> u32 {
        let mut gains = [0.0; 128];
        let mut greatest = Greatest {
            number: 0,
            value: f64::MIN,
        };
        self.nodes.evaluate(Worlds::Block(0));
        let mut value = self.nodes.find_gains(&mut gains);
        greatest.offer(0, value, &gains);
        for count in 1..blocks_of(self.world.len()) {
            let block = count ^ (count >> 1);
            let worlds = Worlds::Block(block);
            value += self.nodes.turn(turned_atom(count), worlds, &mut gains);
            greatest.offer(block, value, &gains);
        }
        greatest.number
    }
}
