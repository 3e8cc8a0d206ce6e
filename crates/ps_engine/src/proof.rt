//! The proof of a guess.

use crate::engine::Engine;
use crate::limits::{MOST_PROOF_CLAUSES, PROOF_CONFLICTS};
use crate::side::Turn;
use ps_answer::Dual;
use ps_float_pricing::{Aim, Goal, Member};
use ps_formula::World;
use ps_guesser::Guess;
use ps_io::NoMemory;
use ps_pb::Steps;
use ps_problem::Problem;
use ps_simplex_float::Column;
use ps_world_search::{Refutation, Refuted};
use std::mem::replace;

/// A guess, with the search for the steps that show that the combination of its dual is below 1 in each
/// world.
#[derive(Drop)]
pub(crate) struct Proof {
    aim: Aim,
    guess: Guess,
    search: Refutation,
}

// A guess with these steps.
fn with_steps(guess: Guess, steps: Steps) -> Guess {
    let Guess { model, dual } = guess;
    Guess {
        model,
        dual: Dual {
            top: dual.top,
            head: dual.head,
            rows: dual.rows,
            steps,
        },
    }
}

impl Engine {
    // Begins to prove a guess whose combination is this goal, and goes on with it. Where a proof for the
    // same aim was given up, none is begun.
    pub(crate) fn begin_proof(
        &mut self,
        problem: &Problem,
        aim: Aim,
        goal: &Goal,
        guess: Guess,
    ) -> Result<Turn, NoMemory> {
        if self.unproved.contains(&aim) {
            return Ok(Turn::Guess(guess));
        }
        let search = Refutation::new(
            self.alloc,
            problem.formulas(),
            problem.atoms(),
            goal.weights(),
            goal.base(),
        )?;
        self.go_on_with(problem, Proof { aim, guess, search })
    }

    // Goes on with the proof of a guess for an aim, where one was begun.
    pub(crate) fn prove(&mut self, problem: &Problem, aim: Aim) -> Result<Option<Turn>, NoMemory> {
        match self.take_proof(aim)? {
            Some(proof) => Ok(Some(self.go_on_with(problem, proof)?)),
            None => Ok(None),
        }
    }

    // The proof that was begun for an aim, taken out.
    fn take_proof(&mut self, aim: Aim) -> Result<Option<Proof>, NoMemory> {
        let mut taken = None;
        for proof in replace(&mut self.proofs, Vec::new(self.alloc)) {
            if proof.aim == aim {
                taken = Some(proof);
            } else {
                self.proofs.push(proof)?;
            }
        }
        Ok(taken)
    }

    // Goes on with a proof. A guess whose proof takes too long goes without.
    fn go_on_with(&mut self, problem: &Problem, mut proof: Proof) -> Result<Turn, NoMemory> {
        match proof.search.go_on(PROOF_CONFLICTS)? {
            Refuted::Shown(steps) => Ok(Turn::Guess(with_steps(proof.guess, steps))),
            Refuted::Against(world) => self.take_against(problem, proof.aim, world),
            Refuted::Unfinished => {
                if proof.search.clauses_learned() >= MOST_PROOF_CLAUSES {
                    self.unproved.push(proof.aim)?;
                    return Ok(Turn::Guess(proof.guess));
                }
                self.proofs.push(proof)?;
                Ok(Turn::Again)
            }
        }
    }

    // Takes in a world in which the combination of a guess is at least 1. For an aim it is to enter the
    // basis.
    fn take_against(
        &mut self,
        problem: &Problem,
        aim: Aim,
        world: World,
    ) -> Result<Turn, NoMemory> {
        let Some(member) = Member::new(self.alloc, problem, world)? else {
            return Ok(Turn::GiveUp);
        };
        let is_new = self.take(member)?;
        if aim == Aim::Consistent {
            return Ok(Turn::Again);
        }
        if !is_new || !self.may_go_on() {
            return Ok(Turn::GiveUp);
        }
        let last = self.pool.members().len().wrapping_sub(1);
        self.forced = Some(Column::Added(last));
        Ok(Turn::Again)
    }
}
