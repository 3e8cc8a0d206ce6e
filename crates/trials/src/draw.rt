//! Numbers from a fixed sequence.
ghost use Rattle.std.specs.Prelude.{◌<◌};

/// A linear congruential sequence (D. E. Knuth, "The Art of Computer Programming", 3.3.4).
#[derive(Drop)]
pub struct Draw {
    state: u64,
}

impl Draw {
    /// The sequence from a seed.
    pub fn new(seed: u64) -> Draw {
        Draw { state: seed }
    }

    /// A number below a bound.
    pub fn below(&mut self, bound: u64) -> u64
        requires { 0 < bound }
        ensures { result < bound }
    {
        self.state = self
            .state
            .wrapping_mul(6364136223846793005)
            .wrapping_add(1442695040888963407);
        (self.state >> 33) % bound
    }

    /// True or false.
    pub fn coin(&mut self) -> bool {
        self.below(2) == 1
    }
}
