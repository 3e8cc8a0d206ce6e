//! How a search ends.

use ps_formula::World;

/// How a search ends.
#[derive(Drop)]
pub enum Ended {
    /// In this world the sum is large enough.
    Found(World),
    /// There is no such world.
    Nothing,
    /// It was spent.
    Spent,
}
