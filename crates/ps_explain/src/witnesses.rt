//! What shows that the sentences of a core are needed.
use crate::explained::{Explained, Models};

/// What shows of each sentence of a core that it is needed.
#[derive(Drop)]
pub(crate) enum Witnesses {
    /// For each of them, in order, a distribution that meets the others.
    Found(Models),
    /// A limit was reached in the run without one of them.
    Open(Explained),
}
