//! Where a run stands.
use ps_table::{Pool, Table, Trace};

/// Where a run stands: its table, the worlds of its columns, the events that were not yet taken,
/// and how many pivots are left.
#[derive(Drop)]
pub struct State {
    /// The table.
    pub table: Table,
    /// The worlds of its columns.
    pub pool: Pool,
    /// The events that were not yet taken.
    pub trace: Trace,
    /// How many pivots are left.
    pub left: u64,
}
