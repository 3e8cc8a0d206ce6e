//! Truth in many worlds at once.

/// Worlds in which truth is found at once.
#[derive(Clone, Copy)]
pub(crate) enum Worlds<'w> {
    /// A world, and those that differ from it in one atom.
    Around(&'w [bool]),
    /// The 128 worlds of this block. The worlds of all blocks are numbered in order, and an atom is true
    /// in a world whose number has the atom's bit.
    Block(u32),
}

impl<'w> Worlds<'w> {
    /// An atom in these worlds.
    pub(crate) fn atom(self, number: u16) -> Neighbours {
        match self {
            Worlds::Around(world) => {
                let truth = world.get(number as usize).copied().unwrap_or(false);
                Neighbours::atom(number, truth)
            }
            Worlds::Block(block) => Neighbours::in_block(number, block),
        }
    }
}

/// The atoms that are few enough to have a bit each.
const ATOM_BITS: u16 = 128;

/// Where more worlds than this have the other truth value, they are gone through by fours.
const MANY_WORLDS: u32 = 20;

/// Which of four worlds a digit of four bits has, as numbers.
static FOURS: [[f64; 4]; 16] = [
    [0.0, 0.0, 0.0, 0.0],
    [1.0, 0.0, 0.0, 0.0],
    [0.0, 1.0, 0.0, 0.0],
    [1.0, 1.0, 0.0, 0.0],
    [0.0, 0.0, 1.0, 0.0],
    [1.0, 0.0, 1.0, 0.0],
    [0.0, 1.0, 1.0, 0.0],
    [1.0, 1.0, 1.0, 0.0],
    [0.0, 0.0, 0.0, 1.0],
    [1.0, 0.0, 0.0, 1.0],
    [0.0, 1.0, 0.0, 1.0],
    [1.0, 1.0, 0.0, 1.0],
    [0.0, 0.0, 1.0, 1.0],
    [1.0, 0.0, 1.0, 1.0],
    [0.0, 1.0, 1.0, 1.0],
    [1.0, 1.0, 1.0, 1.0],
];

/// The bit of an atom, where it has one.
pub(crate) fn atom_bit(number: u16) -> u128 {
    if number < ATOM_BITS { 1 << number } else { 0 }
}

/// Whether an atom is among these.
pub(crate) fn has_atom(atoms: u128, number: u16) -> bool {
    atoms & atom_bit(number) != 0
}

/// Whether a number has a bit.
pub(crate) fn has_bit(number: u32, bit: u32) -> bool {
    bit < 32 && (number >> bit) & 1 == 1
}

/// The truth of a node in a world, and in the world's neighbours: bit n is the truth where atom n is
/// turned. In a block it is that in the first world, and bit n is the truth in the world that is n
/// further on.
#[derive(Clone, Copy, PartialEq)]
pub(crate) struct Neighbours {
    here: bool,
    there: u128,
}

impl Neighbours {
    /// True or false in all of them.
    pub(crate) fn all(truth: bool) -> Neighbours {
        Neighbours {
            here: truth,
            there: if truth { u128::MAX } else { 0 },
        }
    }

    /// An atom that has this truth value in the world.
    pub(crate) fn atom(number: u16, truth: bool) -> Neighbours {
        Neighbours {
            here: truth,
            there: Neighbours::all(truth).there ^ atom_bit(number),
        }
    }

    /// An atom that differs among the worlds of a block in this way.
    fn varying(there: u128) -> Neighbours {
        Neighbours { here: false, there }
    }

    /// An atom in the worlds of a block.
    fn in_block(number: u16, block: u32) -> Neighbours {
        match number {
            0 => Neighbours::varying(0xaaaa_aaaa_aaaa_aaaa_aaaa_aaaa_aaaa_aaaa),
            1 => Neighbours::varying(0xcccc_cccc_cccc_cccc_cccc_cccc_cccc_cccc),
            2 => Neighbours::varying(0xf0f0_f0f0_f0f0_f0f0_f0f0_f0f0_f0f0_f0f0),
            3 => Neighbours::varying(0xff00_ff00_ff00_ff00_ff00_ff00_ff00_ff00),
            4 => Neighbours::varying(0xffff_0000_ffff_0000_ffff_0000_ffff_0000),
            5 => Neighbours::varying(0xffff_ffff_0000_0000_ffff_ffff_0000_0000),
            6 => Neighbours::varying(0xffff_ffff_ffff_ffff_0000_0000_0000_0000),
            _ => Neighbours::all(has_bit(block, number.saturating_sub(7) as u32)),
        }
    }

    /// True where this is false.
    pub(crate) fn not(self) -> Neighbours {
        Neighbours {
            here: !self.here,
            there: !self.there,
        }
    }

    /// True where both are.
    pub(crate) fn and(self, other: Neighbours) -> Neighbours {
        Neighbours {
            here: self.here && other.here,
            there: self.there & other.there,
        }
    }

    /// True where one of them is.
    pub(crate) fn or(self, other: Neighbours) -> Neighbours {
        Neighbours {
            here: self.here || other.here,
            there: self.there | other.there,
        }
    }

    /// True where both have the same truth value.
    pub(crate) fn iff(self, other: Neighbours) -> Neighbours {
        Neighbours {
            here: self.here == other.here,
            there: !(self.there ^ other.there),
        }
    }

    /// The truth in the world.
    pub(crate) fn here(self) -> bool {
        self.here
    }

    /// The neighbours in which it isn't that of the world, one bit each.
    fn changes(self) -> u128 {
        if self.here { !self.there } else { self.there }
    }

    /// What its truth in the world counts, where truth counts so much.
    pub(crate) fn worth(self, weight: f64) -> f64 {
        if self.here { weight } else { 0.0 }
    }

    /// What a neighbour of the other truth value has more, where truth counts so much.
    fn gain(self, weight: f64) -> f64 {
        if self.here { -weight } else { weight }
    }

    /// Adds to the gain of each neighbour what it has more than the world, where truth counts so much.
    pub(crate) fn add_gains(self, weight: f64, gains: &mut [f64]) {
        add_to(self.changes(), self.gain(weight), gains);
    }

    /// Brings the gains up to date where this was the truth before.
    pub(crate) fn turn_gains(self, new: Neighbours, weight: f64, gains: &mut [f64]) {
        let (old_changes, new_changes) = (self.changes(), new.changes());
        let (old_gain, new_gain) = (self.gain(weight), new.gain(weight));
        if old_changes == new_changes {
            add_to(new_changes, new_gain - old_gain, gains);
        } else {
            add_to(old_changes, -old_gain, gains);
            add_to(new_changes, new_gain, gains);
        }
    }
}

/// Adds to the numbers at the places of these bits.
fn add_to(places: u128, gain: f64, gains: &mut [f64]) {
    if places.count_ones() > MANY_WORLDS {
        add_to_many(places, gain, gains);
    } else {
        add_to_few(places, gain, gains);
    }
}

/// The same where they are few.
fn add_to_few(places: u128, gain: f64, gains: &mut [f64]) {
    let mut left = places;
    for _ in 0..left.count_ones() {
        if let Some(x) = gains.get_mut(left.trailing_zeros() as usize) {
            *x += gain;
        }
        left &= left.wrapping_sub(1);
    }
}

/// The same where they are many.
fn add_to_many(places: u128, gain: f64, gains: &mut [f64]) {
    let mut left = places;
    for four in gains.chunks_mut(4) {
        if let Some(row) = FOURS.get((left & 15) as usize) {
            for (x, has) in four.iter_mut().zip(row) {
                *x += gain * has;
            }
        }
        left >>= 4;
    }
}
