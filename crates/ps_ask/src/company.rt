//! What is beside an answer while it is looked for.
use crate::sought::Sought;
use ps_guess::Watch;

/// So many rounds are made of a guess before time is looked at and people are told how far it is.
pub const ROUNDS: u32 = 4;

/// What is beside an answer while it is looked for: it tells whether time is over, and is told what
/// people may want to know meanwhile. What an answer says doesn't depend on it; how much of it is
/// finished does.
pub trait Company: Watch {
    /// Messages or warnings about the input.
    fn note(&mut self, text: &[u8]);

    /// From now on this is sought.
    fn turn_to(&mut self, sought: Sought);

    /// Something is about to be shown.
    fn clear(&mut self);
}
