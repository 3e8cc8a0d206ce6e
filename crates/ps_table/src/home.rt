//! Homes.

/// The kind of a row's home column.
#[derive(Clone, Copy, PartialEq, Eq, Debug, Drop)]
pub enum Home {
    /// A slack: by how much a sum is away from its bound.
    Slack,
    /// An artificial: it is basic at first, has to become 0, and never enters.
    Artificial,
}
