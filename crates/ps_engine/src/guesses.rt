//! The guesses of an engine.

use crate::engine::{Engine, Stage};
use crate::limits::MOST_PARTS;
use crate::on_face::Within;
use crate::side::Turn;
use crate::whole::{Values, model_of};
use ps_answer::{Dual, Model};
use ps_claims::ClaimKind;
use ps_float_pricing::Aim;
use ps_formula::World;
use ps_guesser::{Guess, Guesser, Progress};
use ps_io::NoMemory;
use ps_problem::{Problem, Query};

impl Engine {
    // Finds whether the bounds can be met, where that isn't known.
    fn settle(&mut self, problem: &Problem) -> Result<Stage, NoMemory> {
        if self.stage == Stage::Fresh || self.stage == Stage::Begun {
            self.stage = self.first_phase(problem)?;
            if self.stage == Stage::Unknown && self.begin_anew()? {
                self.stage = self.first_phase(problem)?;
            }
            if self.stage != Stage::Begun {
                self.pace.end();
            }
        }
        Ok(self.stage)
    }

    // The distribution of the basis, where its numbers are small and it meets the bounds.
    fn basic_model(&self) -> Result<Within, NoMemory> {
        let Some(system) = self.system()? else {
            return Ok(Within::Nothing);
        };
        let Some(values) = system.values()? else {
            return Ok(Within::Nothing);
        };
        if !self.meets_bounds(Aim::Consistent, &system, &values)? {
            return Ok(Within::Nothing);
        }
        match model_of(self.alloc, &self.pool, Aim::Consistent, &system, &values)? {
            Values::Negative => Ok(Within::Nothing),
            Values::Model(whole) => Ok(Within::Model(whole)),
        }
    }

    // The distribution of the basis, or before any way to smaller numbers one that keeps a margin.
    fn model_here(&mut self, problem: &Problem) -> Result<Within, NoMemory> {
        match self.basic_model()? {
            Within::Model(whole) => Ok(Within::Model(whole)),
            _ if self.descents > 0 => Ok(Within::Nothing),
            _ => self.inner_model(problem),
        }
    }

    // The same, and where there is none a part of a way to other vertices.
    fn model_part(&mut self, problem: &Problem) -> Result<Within, NoMemory> {
        if self.descent.is_none() {
            match self.model_here(problem)? {
                Within::Against(_) | Within::Nothing => {}
                found => return Ok(found),
            }
        }
        if self.shrink(problem, Aim::Consistent)? {
            Ok(Within::Unfinished)
        } else {
            Ok(Within::Nothing)
        }
    }

    // The distribution of the basis, or where its numbers are too large one that keeps a margin, or of
    // other vertices.
    fn small_model(&mut self, problem: &Problem) -> Result<Option<Model>, NoMemory> {
        if self.pace.first() == 0 {
            self.end_descents();
        }
        for part in self.pace.first()..MOST_PARTS {
            if self.pace.is_part_due(part) {
                self.pause(part, 0.0);
                return Ok(None);
            }
            match self.model_part(problem)? {
                Within::Model(whole) => return Ok(Some(whole.model)),
                Within::Unfinished => {}
                Within::Against(_) | Within::Nothing => return Ok(None),
            }
        }
        Ok(None)
    }

    // Where a call came to its end without a guess, begins anew where that is possible, and answers
    // whether it did.
    fn begins_anew(&mut self) -> Result<bool, NoMemory> {
        Ok(self.pace.progress().is_none() && self.begin_anew()?)
    }

    // The guess for an aim, where the bounds can be met.
    fn side(&mut self, problem: &Problem, aim: Aim) -> Result<Option<Guess>, NoMemory> {
        if self.settle(problem)? != Stage::Feasible || !self.begin(problem, aim)? {
            return Ok(None);
        }
        match self.turn(problem, aim, false)? {
            Turn::Guess(guess) => Ok(Some(guess)),
            _ => Ok(None),
        }
    }

    /// From now on each call pauses after so many rounds, each of which prices worlds once.
    pub fn pause_every(&mut self, rounds: u32) {
        self.pace.every = rounds;
    }

    /// How many pivots were made since the engine was made, or last told which sentences are kept.
    pub fn pivots(&self) -> u64 {
        self.earlier_pivots.saturating_add(self.simplex.pivots())
    }

    /// How many worlds it knows.
    pub fn worlds(&self) -> usize {
        self.pool.members().len()
    }
}

// What a guess of a bound aims at.
fn aim_of(kind: ClaimKind, query: Query) -> Option<Aim> {
    match kind {
        ClaimKind::Nothing => None,
        ClaimKind::Lower => Some(Aim::Least(query)),
        ClaimKind::Upper => Some(Aim::Greatest(query)),
    }
}

impl Guesser for Engine {
    /// From now on guesses are about the sentences that are kept. The worlds that were met and meet
    /// their certainties stay known.
    fn keep(&mut self, problem: &Problem, kept: &[bool]) -> Result<(), NoMemory> {
        self.go_over(problem, kept)
    }

    fn model(&mut self, problem: &Problem) -> Result<Option<Model>, NoMemory> {
        self.pace.begin();
        if self.settle(problem)? != Stage::Feasible {
            return Ok(None);
        }
        match self.small_model(problem)? {
            None if self.begins_anew()? && self.settle(problem)? == Stage::Feasible => {
                self.small_model(problem)
            }
            guess => Ok(guess),
        }
    }

    fn nothing(
        &mut self,
        problem: &Problem,
        query: Option<Query>,
    ) -> Result<Option<Dual>, NoMemory> {
        self.pace.begin();
        let stage = self.settle(problem)?;
        let Some(query) = query else {
            return self.refutation(problem, stage);
        };
        match query.given {
            Some(given) if stage == Stage::Feasible => self.impossible(problem, given),
            _ => Ok(None),
        }
    }

    fn bound(
        &mut self,
        problem: &Problem,
        kind: ClaimKind,
        query: Query,
    ) -> Result<Option<Guess>, NoMemory> {
        let Some(aim) = aim_of(kind, query) else {
            return Ok(None);
        };
        self.pace.begin();
        match self.side(problem, aim)? {
            None if self.begins_anew()? => self.side(problem, aim),
            guess => Ok(guess),
        }
    }

    fn progress(&self) -> Option<Progress> {
        self.pace.progress()
    }

    fn add(&mut self, world: World) -> Result<(), NoMemory> {
        self.waiting.push(world)?;
        Ok(())
    }
}
