//! Tolerances of an engine.

/// From where on a float counts as something else than 0. Whatever they are, an engine's guesses are
/// only guesses; these suit problems whose numbers have up to six digits.
#[derive(Clone, Copy, Debug)]
pub struct Tolerances {
    /// A world whose gain is above this improves.
    pub least_gain: f64,
    /// Where the first phase ends so near to 0, its values are looked at again.
    pub near_feasible: f64,
    /// Where it ends so near to 0, the bounds are met.
    pub feasible: f64,
    /// An objective nearer to its least possible value is taken for that.
    pub trivial: f64,
    /// A column whose reduced cost is nearer to 0 is on the face of least cost.
    pub level: f64,
}

impl Tolerances {
    /// The usual ones.
    pub fn usual() -> Tolerances {
        Tolerances {
            least_gain: 1e-8,
            near_feasible: 1e-5,
            feasible: 1e-8,
            trivial: 1e-7,
            level: 1e-9,
        }
    }

    /// The same one everywhere.
    pub fn all(tolerance: f64) -> Tolerances {
        Tolerances {
            least_gain: tolerance,
            near_feasible: tolerance,
            feasible: tolerance,
            trivial: tolerance,
            level: tolerance,
        }
    }
}
