//! The column of a world.

/// A world's entry in each row, and its cost.
#[derive(Drop)]
pub(crate) struct Column {
    pub(crate) entries: Vec<i64>,
    pub(crate) cost: i8,
}
