//! One side of a query.

use crate::basis_system::BasisSystem;
use crate::engine::Engine;
use crate::limits::{ENOUGH_EVIDENCE, MOST_REPAIRS, MOST_ROUNDS};
use crate::whole::{Prices, Values, WholeModel, extreme, model_of, multipliers_of};
use ps_float_pricing::{Aim, Goal, Multipliers};
use ps_guesser::Guess;
use ps_io::NoMemory;
use ps_problem::Problem;
use ps_simplex_float::{Column, Ending};

/// What a turn comes to.
#[derive(Drop)]
pub(crate) enum Turn {
    /// One more is to be made.
    Again,
    /// The guess.
    Guess(Guess),
    /// The objective is below what was asked for.
    Enough,
    /// The numbers of the vertex are too large.
    TooLarge,
    /// There is no guess.
    GiveUp,
    /// The rounds or parts of this call are made, and others are left.
    Pause,
}

impl Engine {
    // Turns until there is a guess for an aim, or for evidence until there is enough of it.
    pub(crate) fn turn(
        &mut self,
        problem: &Problem,
        aim: Aim,
        is_evidence: bool,
    ) -> Result<Turn, NoMemory> {
        for round in self.pace.first()..MOST_ROUNDS {
            if self.pace.is_due(round) {
                return Ok(self.rest(round, aim));
            }
            match self.one_turn(problem, aim, is_evidence)? {
                Turn::Again => {}
                Turn::Pause => return Ok(self.rest(round, aim)),
                turn => return Ok(turn),
            }
        }
        Ok(Turn::GiveUp)
    }

    // The guess pauses before this round.
    fn rest(&mut self, round: u32, aim: Aim) -> Turn {
        let gap = self.gap.min(room_of(aim, self.simplex.objective()));
        self.pause(round, gap);
        Turn::Pause
    }

    // One minimisation, one pricing, and where no world improves, whole numbers.
    fn one_turn(
        &mut self,
        problem: &Problem,
        aim: Aim,
        is_evidence: bool,
    ) -> Result<Turn, NoMemory> {
        if let Some(turn) = self.prove(problem, aim)? {
            return Ok(turn);
        }
        if self.descents > 0 || self.on_face > 0 {
            return self.whole_turn(problem, aim);
        }
        if !self.optimise() && !self.may_mend() {
            return Ok(Turn::GiveUp);
        }
        if is_evidence && self.has_enough() {
            return Ok(Turn::Enough);
        }
        let is_trivial = self.is_trivial(aim);
        if !is_trivial {
            // What a short search leaves open, the trial of the guess decides.
            match self.price(problem, aim, self.tolerances.least_gain, false)? {
                None | Some(0) => {}
                Some(_) => return Ok(Turn::Again),
            }
        }
        let pivots = self.simplex.pivots();
        if self.simplex.clean(MOST_REPAIRS) != Ending::Optimal {
            return Ok(self.perturb());
        }
        if self.simplex.pivots() != pivots && !is_trivial && self.may_mend() {
            return Ok(Turn::Again);
        }
        self.whole_turn(problem, aim)
    }

    // Whether there is enough evidence, also at the true right side.
    fn has_enough(&mut self) -> bool {
        if self.simplex.objective() >= -ENOUGH_EVIDENCE {
            return false;
        }
        self.simplex.clean(MOST_REPAIRS);
        self.simplex.objective() < -ENOUGH_EVIDENCE
    }

    // Moves the values that are 0 again.
    fn perturb(&mut self) -> Turn {
        if !self.may_mend() {
            return Turn::GiveUp;
        }
        self.simplex.perturb();
        Turn::Again
    }

    // Whole numbers from the basis, and where they are too large, from others on the same face, by parts.
    fn whole_turn(&mut self, problem: &Problem, aim: Aim) -> Result<Turn, NoMemory> {
        for _ in 0..self.pace.parts() {
            match self.whole_part(problem, aim)? {
                Turn::Pause => {}
                turn => return Ok(turn),
            }
        }
        Ok(Turn::Pause)
    }

    // Where no way goes on, whole numbers from the basis, and where they are too large, a part of a way.
    fn whole_part(&mut self, problem: &Problem, aim: Aim) -> Result<Turn, NoMemory> {
        if self.descent.is_none() {
            match self.whole_guess(problem, aim)? {
                Turn::TooLarge => {}
                turn => return Ok(turn),
            }
        }
        if self.shrink(problem, aim)? {
            Ok(Turn::Pause)
        } else {
            Ok(Turn::GiveUp)
        }
    }

    // Whole numbers from the basis.
    fn whole_guess(&mut self, problem: &Problem, aim: Aim) -> Result<Turn, NoMemory> {
        let Some(system) = self.system()? else {
            return Ok(self.perturb());
        };
        let Some(values) = system.values()? else {
            return self.guess_on_face(problem, aim, &system);
        };
        match model_of(self.alloc, &self.pool, aim, &system, &values)? {
            Values::Negative => Ok(self.perturb()),
            Values::Model(_) if !self.meets_bounds(aim, &system, &values)? => {
                self.guess_on_face(problem, aim, &system)
            }
            Values::Model(whole) => self.guess_from(problem, aim, &system, whole),
        }
    }

    // The guess of a distribution, with multipliers.
    fn guess_from(
        &mut self,
        problem: &Problem,
        aim: Aim,
        system: &BasisSystem,
        whole: WholeModel,
    ) -> Result<Turn, NoMemory> {
        if whole.given == 0 {
            return Ok(Turn::GiveUp);
        }
        if whole.is_extreme(aim) {
            let multipliers = extreme(self.alloc, aim, self.relaxed.bounds())?;
            return self.test_guess(problem, aim, whole, multipliers);
        }
        let Some(prices) = system.prices(&self.pool, aim)? else {
            return Ok(Turn::TooLarge);
        };
        match multipliers_of(self.alloc, &self.relaxed, aim, system, &prices)? {
            Prices::Multipliers(multipliers) => {
                self.test_guess(problem, aim, whole, multipliers)
            }
            Prices::WrongSign(row) => Ok(self.force(Column::Slack(row))),
        }
    }

    // Lets a column enter the basis in the next turn.
    pub(crate) fn force(&mut self, column: Column) -> Turn {
        if !self.may_mend() {
            return Turn::GiveUp;
        }
        self.forced = Some(column);
        Turn::Again
    }

    // The guess, if the combination is below 1 in each world of the pool, once it is proved.
    fn test_guess(
        &mut self,
        problem: &Problem,
        aim: Aim,
        whole: WholeModel,
        mut multipliers: Multipliers,
    ) -> Result<Turn, NoMemory> {
        let mut goal = self.relaxed.combination(self.alloc, aim, &multipliers)?;
        if !self.relaxed.outweigh(&mut goal, &mut multipliers) {
            return Ok(Turn::GiveUp);
        }
        match self.place_against(&goal) {
            Some(place) => Ok(self.force(Column::Added(place))),
            None => {
                let dual = multipliers.into_dual(self.alloc);
                let model = whole.model;
                self.begin_proof(problem, aim, &goal, Guess { model, dual })
            }
        }
    }

    // The place of a world of the pool in which the combination is at least 1.
    pub(crate) fn place_against(&self, goal: &Goal) -> Option<usize> {
        let members = self.pool.members();
        (0..members.len()).find(|place| match members.get(*place) {
            Some(member) => goal.value(&member.truth) >= 1,
            None => false,
        })
    }

    // Whether the objective is so near to the least possible one that no world need be sought.
    pub(crate) fn is_trivial(&self, aim: Aim) -> bool {
        let objective = self.simplex.objective();
        match aim {
            Aim::Consistent => false,
            Aim::Least(_) => objective < self.tolerances.trivial,
            Aim::Greatest(_) => objective < self.tolerances.trivial - 1.0,
        }
    }
}

// By how much an objective may still fall at most.
fn room_of(aim: Aim, objective: f64) -> f64 {
    match aim {
        Aim::Consistent | Aim::Least(_) => objective,
        Aim::Greatest(_) => objective + 1.0,
    }
}
