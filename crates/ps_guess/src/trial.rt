//! What the trial of a guess ends with.
use ps_claims::Reason;
use ps_formula::World;

/// What the trial of a guess ends with.
#[derive(Drop)]
pub enum Trial<T> {
    /// The guess is right, and this shows it.
    Shown(T),
    /// In this world, which has the problem's atoms, the combination of the guessed dual is at
    /// least 1.
    Found(World),
    /// The guess is wrong, for this reason.
    Wrong(Reason),
    /// The search for a world in which the combination is at least 1 was spent.
    Spent,
}
