//! Problems of short texts, and limits that are enough for each of them.
use ps_explain::Limits;
use ps_problem::Problem;
use ps_read::read_whole;
use std::alloc::Global;

pub(crate) const LIMITS: Limits = Limits {
    pivots: 1000,
    conflicts: 1000,
};

// The problem of a text that isn't long.
pub(crate) fn problem_of(alloc: Global, text: &[u8]) -> Option<Problem> {
    if text.len() > 1000 {
        return None;
    }
    read_whole(alloc, text).ok()
}
