//! Where an answer goes.

/// Where an answer goes.
#[derive(Drop)]
pub struct Sinks<O, R> {
    /// What is shown of it.
    pub shown: O,
    /// Its report, where one is wanted beside what is shown.
    pub report: R,
}
