//! What an explanation is.
use ps_answer::{Cause, Dual, Model};
use ps_io::List;
use ps_table::Trace;

/// Numbers of sentences, from 1.
pub type Numbers = List<u32>;

/// Distributions, in order.
pub type Models = List<Model>;

/// Why a problem's sentences can't be met together, or a distribution that meets them.
#[derive(Drop)]
pub enum Explained {
    /// A distribution that meets them.
    Consistent(Model),
    /// Sentences that can't be met together, with the dual that shows it, and for each of them, in
    /// order, a distribution that meets the others.
    Core {
        sentences: Numbers,
        dual: Dual,
        without: Models,
    },
    /// A limit was reached in the run over these sentences, which the cause tells, with the run's
    /// events.
    Open {
        sentences: Numbers,
        cause: Cause,
        first: Trace,
    },
}
