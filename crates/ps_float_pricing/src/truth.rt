//! Truth of nodes in a world. A node that lacks is false.

/// Whether a node is true.
pub fn is_true(truth: &[bool], node: u32) -> bool {
    truth.get(node as usize).copied().unwrap_or(false)
}

/// Whether a condition is true, which it is where nothing is given.
pub fn is_given(truth: &[bool], given: Option<u32>) -> bool {
    match given {
        Some(node) => is_true(truth, node),
        None => true,
    }
}
