//! Evidence: whether it is possible.

use crate::engine::Engine;
use crate::side::Turn;
use ps_answer::Dual;
use ps_float_pricing::Aim;
use ps_io::NoMemory;
use ps_problem::{Problem, Query};

// The query for the evidence itself.
fn evidence_query(given: u32) -> Query {
    Query {
        formula: given,
        given: None,
        both: given,
    }
}

// What shows that evidence is impossible, from what shows that its probability is at most 0.
fn excluding(dual: Dual) -> Option<Dual> {
    if dual.head != 0 {
        return None;
    }
    Some(Dual {
        top: 0,
        head: dual.top,
        rows: dual.rows,
        steps: dual.steps,
    })
}

impl Engine {
    // What shows that evidence is impossible, where its greatest probability is 0.
    pub(crate) fn impossible(
        &mut self,
        problem: &Problem,
        given: u32,
    ) -> Result<Option<Dual>, NoMemory> {
        let aim = Aim::Greatest(evidence_query(given));
        if !self.begin(problem, aim)? {
            return Ok(None);
        }
        match self.turn(problem, aim, true)? {
            Turn::Guess(guess) => Ok(excluding(guess.dual)),
            _ => Ok(None),
        }
    }

    // Begins an aim, or goes on after a pause or with the worlds that were told. Answers whether that was
    // possible.
    pub(crate) fn begin(&mut self, problem: &Problem, aim: Aim) -> Result<bool, NoMemory> {
        if self.aim == Some(aim) {
            if self.pace.is_resumed() {
                return Ok(true);
            }
            return Ok(self.take_waiting(problem)? && self.may_go_on());
        }
        self.pace.end();
        self.take_waiting(problem)?;
        self.forced = None;
        self.mended = 0;
        self.told = 0;
        self.end_descents();
        if !self.set_given(aim.evidence())? {
            return Ok(false);
        }
        self.set_aim(aim);
        Ok(true)
    }
}
