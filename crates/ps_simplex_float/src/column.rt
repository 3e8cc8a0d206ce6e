//! The rows and columns of a program.

/// What a row asks of the sum of its entries, each times its column's value.
#[derive(Clone, Copy, PartialEq, Eq, Debug)]
pub enum RowKind {
    /// It is the right side.
    Equal,
    /// It is at most the right side.
    AtMost,
}

/// A column of a program.
#[derive(Clone, Copy, PartialEq, Eq, Debug)]
pub enum Column {
    /// The unit column of a row, whose value is what the row lacks of the right side.
    Slack(usize),
    /// The unit column of a row, whose value is to become 0.
    Artificial(usize),
    /// Its negative.
    NegativeArtificial(usize),
    /// An added column, by its number.
    Added(usize),
}

impl Column {
    /// Whether its value is to become 0.
    pub(crate) fn is_artificial(self) -> bool {
        matches!(self, Column::Artificial(_) | Column::NegativeArtificial(_))
    }

    /// How much its row is preferred where it may leave.
    pub(crate) fn weight(self) -> f64 {
        if self.is_artificial() { 4.0 } else { 1.0 }
    }
}
