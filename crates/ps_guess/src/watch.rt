//! What watches over guesses.
ghost use Rattle.std.specs.Prelude.{◌≡◌, Bool, false, true};

use ps_claims::ClaimKind;
use ps_guesser::Progress;

/// A piece of work that doesn't stop on its way.
#[derive(Clone, Copy, PartialEq, Debug, Drop)]
pub enum Work {
    /// The guesser is asked once, and what it guesses is tried.
    Guess,
    /// A run.
    Run,
}

/// What tells whether time is over, and is told how far guesses are. Nothing that is answered rests on
/// it, but how much is.
pub trait Watch {
    /// Whether it has said so far that time is over, or that a piece of work has no room.
    ghost has_refused: { Self → Bool };

    /// Whether time is over: nothing more is begun then.
    fn is_over(&mut self) -> bool
        ensures over { result ≡ true → has_refused self.new ≡ true }
        ensures kept { has_refused self.old ≡ true → has_refused self.new ≡ true };

    /// Whether a piece of work of this turn may be begun: whether the time that is left is likely to
    /// do. A turn is twice as long as the one before it.
    fn has_room(&mut self, work: Work, turn: u32) -> bool
        ensures refused { result ≡ false → has_refused self.new ≡ true }
        ensures kept { has_refused self.old ≡ true → has_refused self.new ≡ true };

    /// A guess is on its way, of a bound or else that there is a distribution, or none.
    fn tell(&mut self, kind: ClaimKind, progress: Progress)
        ensures kept { has_refused self.old ≡ true → has_refused self.new ≡ true };
}
