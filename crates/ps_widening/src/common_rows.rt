//! Rows in a common unit.
use ps_io::List;
use ps_problem::Row;

/// The rows of a problem's bounds in their common unit.
#[derive(Drop)]
pub struct CommonRows {
    /// One over this is what the numbers of each row count in.
    pub unit: u32,
    /// The rows.
    pub rows: List<Row>,
}
