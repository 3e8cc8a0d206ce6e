//! Sentences that can't be met together.
use ps_answer::Dual;
use ps_io::List;

/// Sentences that can't be met together, by a truth value for each of the problem, with the dual
/// that shows it.
#[derive(Drop)]
pub(crate) struct Conflict {
    pub(crate) kept: List<bool>,
    pub(crate) dual: Dual,
}
