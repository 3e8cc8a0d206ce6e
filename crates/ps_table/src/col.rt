//! A column of the table.

/// A column: the home of a row, from 0, or a world of the pool, from 1.
#[derive(Clone, Copy, PartialEq, Eq, Debug, Drop)]
pub enum Col {
    /// The home of the row of this number.
    Home(u32),
    /// The world of this number.
    World(u32),
}
