//! Distributions within a face of least cost.

use crate::basis_system::BasisSystem;
use crate::engine::Engine;
use crate::face::{Face, Valued};
use crate::limits::{FACE_WORLDS_OF_A_PART, MOST_ON_FACE, MOST_TIGHTENED};
use crate::rounding::Rounding;
use crate::side::Turn;
use crate::whole::{Prices, WholeModel, extreme, multipliers_of};
use ps_float_pricing::{Aim, Goal, Multipliers};
use ps_guesser::Guess;
use ps_io::NoMemory;
use ps_lifting::Solution;
use ps_problem::Problem;
use ps_simplex_float::Column;

/// What is found within a face.
#[derive(Drop)]
pub(crate) enum Within {
    /// A distribution.
    Model(WholeModel),
    /// A world at this place of the pool, in which the combination is at least 1: there is no such face.
    Against(usize),
    /// Some worlds of the face joined the pool, and others are to be sought: the face begins anew with them.
    Unfinished,
    /// Nothing.
    Nothing,
}

/// How the search for worlds of a face ends.
#[derive(Drop)]
enum Widened {
    /// The margin is as large as it gets, or nothing more is sought.
    Done,
    /// At this place of the pool the combination is at least 1.
    Against(usize),
    /// Some worlds joined, and others may.
    Unfinished,
}

impl Engine {
    /// The guess whose distribution is within the face of the basis, where the numbers of its vertex are too
    /// large, or it misses a bound by little. Only equations and rows with a multiplier must be tight there:
    /// all others get a margin, so that most weights can be rounded.
    pub(crate) fn guess_on_face(
        &mut self,
        problem: &Problem,
        aim: Aim,
        system: &BasisSystem,
    ) -> Result<Turn, NoMemory> {
        if self.descents > 0 {
            return Ok(Turn::TooLarge);
        }
        if self.is_trivial(aim) {
            let multipliers = extreme(self.alloc, aim, self.relaxed.bounds())?;
            return self.guess_at(problem, aim, multipliers);
        }
        let Some(prices) = system.prices(&self.pool, aim)? else {
            return Ok(Turn::TooLarge);
        };
        match multipliers_of(self.alloc, &self.relaxed, aim, system, &prices)? {
            Prices::Multipliers(multipliers) => self.guess_at(problem, aim, multipliers),
            Prices::WrongSign(row) => Ok(self.force(Column::Slack(row))),
        }
    }

    // The guess of these multipliers, with a distribution within their face.
    fn guess_at(
        &mut self,
        problem: &Problem,
        aim: Aim,
        mut multipliers: Multipliers,
    ) -> Result<Turn, NoMemory> {
        let is_tight = self.tight_rows(&multipliers)?;
        let mut goal = self.relaxed.combination(self.alloc, aim, &multipliers)?;
        if !self.relaxed.outweigh(&mut goal, &mut multipliers) {
            return Ok(Turn::GiveUp);
        }
        if let Some(place) = self.place_against(&goal) {
            return Ok(self.force(Column::Added(place)));
        }
        match self.within(problem, aim, &goal, is_tight)? {
            Within::Model(whole) => {
                let dual = multipliers.into_dual(self.alloc);
                let model = whole.model;
                self.begin_proof(problem, aim, &goal, Guess { model, dual })
            }
            Within::Against(place) => Ok(self.force(Column::Added(place))),
            Within::Unfinished => Ok(Turn::Pause),
            Within::Nothing => Ok(Turn::TooLarge),
        }
    }

    /// A distribution that meets the bounds, of which only equations are tight.
    pub(crate) fn inner_model(&mut self, problem: &Problem) -> Result<Within, NoMemory> {
        let multipliers = Multipliers::new(self.alloc, 0, 0, self.relaxed.bounds())?;
        let is_tight = self.tight_rows(&multipliers)?;
        let goal = Goal::new(self.alloc, self.relaxed.nodes())?;
        self.within(problem, Aim::Consistent, &goal, is_tight)
    }

    /// Whether the values of a basis meet all bounds: those whose slack is basic may be missed by little.
    pub(crate) fn meets_bounds(
        &self,
        aim: Aim,
        system: &BasisSystem,
        values: &Solution,
    ) -> Result<bool, NoMemory> {
        let mut valued = Vec::new(self.alloc);
        for place in &system.worlds {
            valued.push(Valued {
                place: *place,
                value: 0.0,
            })?;
        }
        Ok(self.about(aim).meets(&valued, values.numerators.as_slice()))
    }

    // Which rows are tight from that of the evidence on: equations, and rows with a multiplier.
    fn tight_rows(&self, multipliers: &Multipliers) -> Result<Vec<bool>, NoMemory> {
        let mut is_tight = vec![in self.alloc; true; 1]?;
        for row in self.relaxed.rows() {
            is_tight.push(row.is_equation() || multipliers.get(row.number) != 0)?;
        }
        Ok(is_tight)
    }

    // A distribution at which these rows are tight, and others that the face forces to be so.
    fn within(
        &mut self,
        problem: &Problem,
        aim: Aim,
        goal: &Goal,
        mut is_tight: Vec<bool>,
    ) -> Result<Within, NoMemory> {
        for _ in 0..MOST_TIGHTENED {
            let basis = self.simplex.basis();
            let about = self.about(aim);
            let started = Face::new(self.alloc, about, basis, goal, &is_tight)?;
            let Some(mut face) = started else {
                return Ok(Within::Nothing);
            };
            match self.widen(problem, goal, &mut face)? {
                Widened::Done => {}
                Widened::Against(place) => return Ok(Within::Against(place)),
                Widened::Unfinished => return Ok(Within::Unfinished),
            }
            if !face.clean() {
                return Ok(Within::Nothing);
            }
            if !face.tighten(&mut is_tight) {
                return self.rounded_within(aim, goal, &face, &is_tight);
            }
        }
        Ok(Within::Nothing)
    }

    // The distribution of the values of a face, rounded.
    fn rounded_within(
        &self,
        aim: Aim,
        goal: &Goal,
        face: &Face,
        is_tight: &[bool],
    ) -> Result<Within, NoMemory> {
        let about = self.about(aim);
        let valued = face.values(about, goal)?;
        let Some(rounding) = Rounding::new(self.alloc, about, is_tight, valued)? else {
            return Ok(Within::Nothing);
        };
        match rounding.model(about)? {
            Some(whole) => Ok(Within::Model(whole)),
            None => Ok(Within::Nothing),
        }
    }

    // Takes in worlds of the face until its margin is large, or some worlds of it were sought.
    fn widen(
        &mut self,
        problem: &Problem,
        goal: &Goal,
        face: &mut Face,
    ) -> Result<Widened, NoMemory> {
        for _ in 0..FACE_WORLDS_OF_A_PART {
            if !face.minimise() || face.is_wide() || self.on_face >= MOST_ON_FACE {
                return Ok(Widened::Done);
            }
            self.on_face = self.on_face.saturating_add(1);
            face.write_gain(&self.relaxed, &mut self.gain);
            let priced = self
                .pricer
                .price_on_face(problem, &self.relaxed, goal, &self.gain)?;
            let Some(member) = priced else {
                return Ok(Widened::Done);
            };
            if !self.take(member)? {
                return Ok(Widened::Done);
            }
            if let Some(place) = self.add_last(goal, face)? {
                return Ok(Widened::Against(place));
            }
        }
        Ok(Widened::Unfinished)
    }

    // Adds the last world of the pool to a face, or answers its place where the combination is at least 1
    // in it.
    fn add_last(&self, goal: &Goal, face: &mut Face) -> Result<Option<usize>, NoMemory> {
        let place = self.pool.members().len().wrapping_sub(1);
        if let Some(member) = self.pool.members().get(place) {
            if goal.value(&member.truth) >= 1 {
                return Ok(Some(place));
            }
            face.add_on_face(&self.relaxed, place, member)?;
        }
        Ok(None)
    }
}
