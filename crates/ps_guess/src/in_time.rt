//! A guesser that has no guess once time is over.
ghost use Rattle.std.specs.Prelude.{◌<◌};
ghost use Rattle.ps_guess.specs.declared.turns.TheConstants.{MOST_TURNS};

use crate::turns::asked_at;
use crate::watch::{Watch, Work};
use ps_answer::{Dual, Model};
use ps_claims::ClaimKind;
use ps_formula::World;
use ps_guesser::{Guess, Guesser, Progress};
use ps_io::NoMemory;
use ps_problem::{Problem, Query};

/// How often a guess pauses at most before it is given up.
const MOST_PAUSES: u32 = 1_000_000;

/// A guesser beside what watches over it: it has no guess once time is over, or once it was asked as
/// often as it may be. Where a guess pauses, the watch is told how far it is, and asked, and the
/// guesser is asked again; a guess that has paused 1,000,000 times is given up.
#[derive(Drop)]
pub struct InTime<'a, G, W> {
    /// The guesser.
    pub guesser: &'a mut G,
    /// What tells whether time is over.
    pub watch: &'a mut W,
    // The turn that is under way, where guesses have turns.
    turn: Option<u32>,
    // How often the guesser may still be asked, and whether it had to stop for that.
    left: u64,
    has_stopped: bool,
}

impl<'a, G: Guesser, W: Watch> InTime<'a, G, W> {
    /// A guesser, which may be asked without end, beside what watches over it.
    pub fn new(guesser: &'a mut G, watch: &'a mut W) -> InTime<'a, G, W> {
        InTime {
            guesser,
            watch,
            turn: None,
            left: u64::MAX,
            has_stopped: false,
        }
    }

    /// From now on the guesser may be asked as often as this turn allows: once for a guess, and once
    /// more for each time that it pauses.
    pub(crate) fn allow(&mut self, turn: u32)
        requires few { turn < MOST_TURNS }
    {
        self.turn = Some(turn);
        self.left = asked_at(turn);
    }

    /// What is guessed from now on may come to its end: nothing had to stop before it.
    pub(crate) fn begin(&mut self) {
        self.has_stopped = false;
    }

    /// What is guessed had to stop before its end.
    pub(crate) fn stop(&mut self) {
        self.has_stopped = true;
    }

    /// Whether something that was guessed since the beginning had to stop before its end.
    pub(crate) fn has_stopped(&self) -> bool {
        self.has_stopped
    }

    // Whether time is left to ask the guesser once more.
    fn has_room(&mut self) -> bool {
        match self.turn {
            Some(turn) => self.watch.has_room(Work::Guess, turn),
            None => !self.watch.is_over(),
        }
    }

    // Whether the guesser may be asked once more. It is counted that it is.
    fn may_ask(&mut self) -> bool {
        if self.left == 0 || !self.has_room() {
            self.has_stopped = true;
            return false;
        }
        self.left = self.left.saturating_sub(1);
        true
    }

    // Whether the last guess has paused; the watch is told then how far it is.
    fn has_paused(&mut self, kind: ClaimKind) -> bool {
        match self.guesser.progress() {
            Some(progress) => {
                self.watch.tell(kind, progress);
                true
            }
            None => false,
        }
    }
}

impl<'a, G: Guesser, W: Watch> Guesser for InTime<'a, G, W> {
    fn keep(&mut self, problem: &Problem, kept: &[bool]) -> Result<(), NoMemory> {
        self.guesser.keep(problem, kept)
    }

    fn model(&mut self, problem: &Problem) -> Result<Option<Model>, NoMemory> {
        for _ in 0..MOST_PAUSES {
            if !self.may_ask() {
                return Ok(None);
            }
            let guess = self.guesser.model(problem)?;
            if !self.has_paused(ClaimKind::Nothing) {
                return Ok(guess);
            }
        }
        Ok(None)
    }

    fn nothing(
        &mut self,
        problem: &Problem,
        query: Option<Query>,
    ) -> Result<Option<Dual>, NoMemory> {
        for _ in 0..MOST_PAUSES {
            if !self.may_ask() {
                return Ok(None);
            }
            let guess = self.guesser.nothing(problem, query)?;
            if !self.has_paused(ClaimKind::Nothing) {
                return Ok(guess);
            }
        }
        Ok(None)
    }

    fn bound(
        &mut self,
        problem: &Problem,
        kind: ClaimKind,
        query: Query,
    ) -> Result<Option<Guess>, NoMemory> {
        for _ in 0..MOST_PAUSES {
            if !self.may_ask() {
                return Ok(None);
            }
            let guess = self.guesser.bound(problem, kind, query)?;
            if !self.has_paused(kind) {
                return Ok(guess);
            }
        }
        Ok(None)
    }

    fn add(&mut self, world: World) -> Result<(), NoMemory> {
        self.guesser.add(world)
    }

    fn progress(&self) -> Option<Progress> {
        self.guesser.progress()
    }
}
