//! Limits of the engine.

/// How many pivots one minimisation makes at most.
pub(crate) const MOST_PIVOTS: u64 = 20_000;

/// How many pivots lead back to the true right side at most.
pub(crate) const MOST_REPAIRS: u64 = 2_000;

/// How many times one guess is priced at most.
pub(crate) const MOST_ROUNDS: u32 = 3_000;

/// How many times a guess is mended at most.
pub(crate) const MOST_MENDED: u32 = 30;

/// How many times worlds are told at most that one guess overlooked.
pub(crate) const MOST_TOLD: u32 = 500;

/// Evidence of so much probability is possible, and serves as the first row.
pub(crate) const ENOUGH_EVIDENCE: f64 = 0.01;

/// How many roundings of a refutation are tried.
pub(crate) const MOST_ROUNDINGS: u32 = 4;

/// How many conflicts the proof of a guess meets in a round.
pub(crate) const PROOF_CONFLICTS: u64 = 50;

/// The proof of a guess is given up once it has so many clauses.
pub(crate) const MOST_PROOF_CLAUSES: usize = 20_000;

/// The largest multiplier that is rounded from a float.
pub(crate) const LARGEST_ROUNDED: f64 = 1e26;

/// From how many basic worlds a local search starts.
pub(crate) const BASIC_STARTS: u32 = 4;

/// The seed of what is drawn.
pub(crate) const SEED: u64 = 99;

/// How many ways to smaller numbers begin at a basis at most: walks, and one gathering.
pub(crate) const MOST_DESCENTS: u32 = 4;

/// So many walks are made before worlds gather.
pub(crate) const GATHERING: u32 = 1;

/// Around so many worlds of a vertex its others gather.
pub(crate) const CENTRES: usize = 40;

/// How many rounds a gathering has at most.
pub(crate) const GATHERING_ROUNDS: u32 = 80;

/// How many steps a local search makes there at most.
pub(crate) const GATHERING_STEPS: u32 = 100;

/// A world joins where it lowers the cost by more than this.
pub(crate) const GATHERED_GAIN: f64 = 1e-6;

/// Values are set in order by their multiples of one over this.
pub(crate) const FINE_VALUE: f64 = 1e15;

/// How many parts the ways to smaller numbers of a verdict's distribution have at most.
pub(crate) const MOST_PARTS: u32 = 3_000;

/// How many worlds a part of a walk looks at.
pub(crate) const WALK_STEPS: u32 = 2_000;

/// Where guesses pause, a part of a walk or a gathering counts as so many rounds.
pub(crate) const ROUNDS_OF_A_PART: u32 = 4;

/// So many worlds of a face are sought before it begins anew with them, which is a part as well.
pub(crate) const FACE_WORLDS_OF_A_PART: u32 = 20;

/// After so many a walk is cold.
pub(crate) const COLD: u32 = 90_000;

/// After so many another walk begins.
pub(crate) const MOST_STEPS: u32 = 100_000;

/// At first a walk's pivot may be above 1 by so much times the zeros that a drawn number begins with.
pub(crate) const HOTTEST: f64 = 0.14;

/// Each time the determinant is so many times as large, whole numbers are tried.
pub(crate) const SMALLER: f64 = 0.125;

/// The least entry that blocks a column within a face.
pub(crate) const LEAST_BLOCKING: f64 = 1e-7;

/// The least entry of a pivot within a face.
pub(crate) const SMALLEST_PIVOT: f64 = 0.02;

/// By so much a step within a face may be too long.
pub(crate) const SHORTER: f64 = 1e-13;

/// How often rows that a face forces to be tight join the tight ones at most.
pub(crate) const MOST_TIGHTENED: u32 = 20;

/// How many worlds of a face are sought at most, so that its margin grows.
pub(crate) const MOST_ON_FACE: u32 = 200;

/// The margin of a face is at most so much of the evidence.
pub(crate) const LARGEST_MARGIN: f64 = 0.01;

/// A margin above this is large enough.
pub(crate) const WIDE_MARGIN: f64 = 1e-4;

/// One of at most this is none.
pub(crate) const LEAST_MARGIN: f64 = 1e-9;

/// Where there is no margin, a face forces a row of a larger price to be tight.
pub(crate) const FORCED_TIGHT: f64 = 1e-7;

/// What a world costs that isn't on a face, where the margin counts 1.
pub(crate) const OFF_FACE: f64 = 1000.0;

/// A value within a face that is at most this is left out.
pub(crate) const LEAST_VALUE: f64 = 1e-12;

/// An equation isn't solved for an unknown whose entry is at most this.
pub(crate) const LEAST_ENTRY: f64 = 1e-7;

/// Nor for one whose entry times its value is at most this.
pub(crate) const LEAST_WEIGHED: f64 = 1e-9;

/// So much is added to each value where entries are weighed.
pub(crate) const SMALL_VALUE: f64 = 1e-6;

/// Values are rounded to multiples of one over this first.
pub(crate) const COARSEST: i64 = 256;

/// Each rounding is so many times finer than the one before.
pub(crate) const FINER: i64 = 16;

/// How many roundings of a face's values are tried.
pub(crate) const ROUNDINGS: u32 = 7;

/// The largest value that is rounded.
pub(crate) const LARGEST_VALUE: f64 = 1e14;

/// The largest sum of the weights of a distribution.
pub(crate) const LARGEST_TOTAL: i128 = 1 << 90;
