//! How far guesses are.

/// How far a guess is.
#[derive(Clone, Copy, PartialEq, Debug)]
pub struct Progress {
    /// How many worlds are known.
    pub worlds: usize,
    /// How far the value is from its end at most, as far as is known: of a distribution that is sought,
    /// how far it is from meeting the sentences.
    pub gap: f64,
}
