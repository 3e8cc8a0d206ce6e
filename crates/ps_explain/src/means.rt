//! What an explanation is made with.
use ps_generation::Limits;
use ps_guess::Trials;

/// What an explanation is made with: the trials of guesses about the problem, and the limits of
/// runs.
#[derive(Drop)]
pub(crate) struct Means<'t, 'p> {
    pub(crate) trials: &'t Trials<'p>,
    pub(crate) limits: Limits,
}
