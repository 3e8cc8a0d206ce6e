//! The pace of an engine.

use crate::limits::ROUNDS_OF_A_PART;
use ps_guesser::Progress;

/// After how many rounds a guess pauses, and how far the one that paused is.
#[derive(Drop)]
pub(crate) struct Pace {
    /// A call makes at most so many rounds at once.
    pub(crate) every: u32,
    // So many rounds were made before the pause.
    rounds: u32,
    is_resumed: bool,
    paused: Option<Progress>,
}

impl Pace {
    /// The pace of an engine that never pauses.
    pub(crate) fn steady() -> Pace {
        Pace {
            every: u32::MAX,
            rounds: 0,
            is_resumed: false,
            paused: None,
        }
    }

    /// A call begins: it goes on with the guess that paused, where one did.
    pub(crate) fn begin(&mut self) {
        self.is_resumed = self.paused.is_some();
        self.paused = None;
        if !self.is_resumed {
            self.rounds = 0;
        }
    }

    /// Whether the call goes on with a guess that paused.
    pub(crate) fn is_resumed(&self) -> bool {
        self.is_resumed
    }

    /// The first of the rounds that are left.
    pub(crate) fn first(&self) -> u32 {
        self.rounds
    }

    /// Whether the guess pauses before this round.
    pub(crate) fn is_due(&self, round: u32) -> bool {
        round.saturating_sub(self.rounds) >= self.every
    }

    /// How many parts of a way to smaller numbers a call makes: a part counts as four rounds.
    pub(crate) fn parts(&self) -> u32 {
        (self.every / ROUNDS_OF_A_PART).max(1)
    }

    /// Whether the guess pauses before this part.
    pub(crate) fn is_part_due(&self, part: u32) -> bool {
        part.saturating_sub(self.rounds) >= self.parts()
    }

    /// The guess pauses before this round.
    pub(crate) fn pause(&mut self, round: u32, progress: Progress) {
        self.rounds = round;
        self.paused = Some(progress);
    }

    /// The rounds that were begun are at their end.
    pub(crate) fn end(&mut self) {
        self.rounds = 0;
        self.is_resumed = false;
    }

    /// How far the guess is that paused.
    pub(crate) fn progress(&self) -> Option<Progress> {
        self.paused
    }
}
