//! What is looked for.

/// Worlds whose value is above a threshold. The value of a world is a constant and the coefficients of
/// the nodes that are true in it; coefficients past the nodes aren't read, and those that lack are 0.
#[derive(Clone, Copy, Debug)]
pub struct Goal<'g> {
    /// The coefficient of each node, by its number.
    pub coefficients: &'g [f64],
    /// What each world has.
    pub constant: f64,
    /// The threshold.
    pub threshold: f64,
}
