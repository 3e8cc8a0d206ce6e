//! The first phase: whether the bounds can be met.

use crate::engine::{Engine, Stage};
use crate::limits::{LARGEST_ROUNDED, MOST_REPAIRS, MOST_ROUNDINGS, MOST_ROUNDS};
use crate::side::Turn;
use crate::whole::WholeModel;
use ps_answer::Dual;
use ps_float_pricing::{Aim, Goal, Multipliers, Priced};
use ps_guesser::Guess;
use ps_io::NoMemory;
use ps_problem::Problem;
use ps_simplex_float::Ending;
use std::num::{nearest_i64_to_f64, saturating_f64_to_i64};

impl Engine {
    // Finds whether the bounds can be met.
    pub(crate) fn first_phase(&mut self, problem: &Problem) -> Result<Stage, NoMemory> {
        if self.stage == Stage::Fresh {
            self.set_aim(Aim::Consistent);
            if let Some(stage) = self.start(problem)? {
                return Ok(stage);
            }
        }
        for round in self.pace.first()..MOST_ROUNDS {
            if self.pace.is_due(round) {
                let distance = self.simplex.objective();
                self.pause(round, distance);
                return Ok(Stage::Begun);
            }
            if let Some(stage) = self.first_round(problem)? {
                return Ok(stage);
            }
        }
        Ok(Stage::Unknown)
    }

    // Starts from a world that meets the certainties; an answer where that isn't possible.
    fn start(&mut self, problem: &Problem) -> Result<Option<Stage>, NoMemory> {
        if !self.pool.members().is_empty() {
            return Ok(self.start_at_first());
        }
        let mut goal = Goal::new(self.alloc, self.relaxed.nodes())?;
        goal.add_given(None, 1);
        self.relaxed.add_certainties(&mut goal, 1);
        match self.pricer.first(problem, &goal)? {
            Priced::NoneAbove => Ok(Some(Stage::Excluded)),
            Priced::Spent => Ok(Some(Stage::Unknown)),
            Priced::Found(members) => {
                self.take_all(members)?;
                Ok(self.start_at_first())
            }
        }
    }

    // Starts from the first world that is known.
    fn start_at_first(&mut self) -> Option<Stage> {
        if self.simplex.start(0) {
            None
        } else {
            Some(Stage::Unknown)
        }
    }

    // One minimisation and pricing; an answer where the phase is at its end.
    fn first_round(&mut self, problem: &Problem) -> Result<Option<Stage>, NoMemory> {
        if !self.optimise() && !self.may_mend() {
            return Ok(Some(Stage::Unknown));
        }
        if self.simplex.objective() < self.tolerances.near_feasible {
            if self.simplex.clean(MOST_REPAIRS) != Ending::Optimal {
                return Ok(self.unmet());
            }
            if self.simplex.objective() < self.tolerances.feasible {
                return Ok(Some(Stage::Feasible));
            }
        }
        let distance = self.simplex.objective();
        match self.price(problem, Aim::Consistent, 0.5 * distance.max(1e-7), true)? {
            None => Ok(Some(Stage::Unknown)),
            Some(0) => Ok(Some(Stage::Inconsistent(distance))),
            Some(_) => Ok(None),
        }
    }

    // Where the worlds that are known don't meet the bounds at the true right side: the values that are 0
    // are moved, but where light searches found these worlds, the phase is given up, since it can begin anew.
    fn unmet(&mut self) -> Option<Stage> {
        if self.pricer.has_been_light() {
            return Some(Stage::Unknown);
        }
        self.simplex.perturb();
        if self.may_mend() {
            None
        } else {
            Some(Stage::Unknown)
        }
    }

    // The next guess of what shows that the bounds contradict one another, where they were found to. No
    // world's gain is above half of the distance, so that roundings do.
    pub(crate) fn refutation(
        &mut self,
        problem: &Problem,
        stage: Stage,
    ) -> Result<Option<Dual>, NoMemory> {
        let distance = match stage {
            Stage::Excluded => 0.0,
            Stage::Inconsistent(distance) => distance,
            Stage::Fresh | Stage::Begun | Stage::Feasible | Stage::Unknown => return Ok(None),
        };
        for round in self.pace.first()..MOST_ROUNDS {
            if self.pace.is_due(round) {
                self.pause(round, distance);
                return Ok(None);
            }
            match self.rounded_guess(problem, distance)? {
                Turn::Again => {}
                Turn::Guess(guess) => return Ok(Some(guess.dual)),
                _ => return Ok(None),
            }
        }
        Ok(None)
    }

    // Goes on with the proof of a refutation, or with the next rounding.
    fn rounded_guess(&mut self, problem: &Problem, distance: f64) -> Result<Turn, NoMemory> {
        if let Some(turn) = self.prove(problem, Aim::Consistent)? {
            return Ok(turn);
        }
        if self.roundings >= MOST_ROUNDINGS {
            return Ok(Turn::GiveUp);
        }
        let mut multipliers = Multipliers::new(self.alloc, 0, 1, self.relaxed.bounds())?;
        if distance > 0.0 && !self.round_duals(distance, &mut multipliers) {
            return Ok(Turn::GiveUp);
        }
        reduce(&mut multipliers, self.relaxed.bounds());
        self.roundings = self.roundings.saturating_add(1);
        self.refuting(problem, multipliers)
    }

    // The guess of multipliers that show that the bounds contradict one another, once it is proved.
    fn refuting(
        &mut self,
        problem: &Problem,
        mut multipliers: Multipliers,
    ) -> Result<Turn, NoMemory> {
        let aim = Aim::Consistent;
        let mut goal = self.relaxed.combination(self.alloc, aim, &multipliers)?;
        if !self.relaxed.outweigh(&mut goal, &mut multipliers) {
            return Ok(Turn::GiveUp);
        }
        let dual = multipliers.into_dual(self.alloc);
        let model = WholeModel::new(self.alloc).model;
        self.begin_proof(problem, aim, &goal, Guess { model, dual })
    }

    // Rounds the rows' prices, to three bits more each time.
    fn round_duals(&self, distance: f64, multipliers: &mut Multipliers) -> bool {
        let mut scale = 1.0;
        for row in self.relaxed.rows() {
            scale += row.denominator();
        }
        for _ in 0..self.roundings {
            scale *= 8.0;
        }
        scale *= 2.0 / distance;
        for (row, dual) in self
            .relaxed
            .rows()
            .iter()
            .zip(self.simplex.duals().iter().skip(1))
        {
            let size = dual * scale / row.denominator();
            if size.abs() > LARGEST_ROUNDED {
                return false;
            }
            let whole = saturating_f64_to_i64((size * nearest_i64_to_f64(row.sign())).round());
            multipliers.set(row.number, whole as i128);
        }
        true
    }
}

// The greatest common divisor (Euclid); of numbers of 128 bits it takes at most 185 divisions.
fn common_divisor(first: u128, second: u128) -> u128 {
    let mut divisor = first;
    let mut rest = second;
    for _ in 0..185 {
        if rest == 0 {
            break;
        }
        let next = divisor % rest;
        divisor = rest;
        rest = next;
    }
    divisor
}

// What divides each multiplier of a bound.
fn divisor_of(multipliers: &Multipliers, bounds: usize) -> u128 {
    let mut divisor = 0;
    for number in 0..bounds {
        divisor = common_divisor(divisor, multipliers.get(number).unsigned_abs());
    }
    divisor
}

// Divides the multipliers of a contradiction by what divides all of them: where the sum of the rows is
// below 0 in each world it still is, and by a whole number.
fn reduce(multipliers: &mut Multipliers, bounds: usize) {
    let Ok(divisor) = i128::try_from(divisor_of(multipliers, bounds)) else {
        return;
    };
    for number in 0..bounds {
        if let Some(multiplier) = multipliers.get(number).checked_div(divisor) {
            multipliers.set(number, multiplier);
        }
    }
}
