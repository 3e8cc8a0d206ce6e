//! Random weighted problems, and their greatest values by trying all assignments.
ghost use Rattle.std.specs.Prelude.{◌<◌, ◌≤◌};
ghost use Rattle.ps_pb.specs.declared.limits.TheConstants.{MOST_VARIABLES};

use crate::draw::Draw;
use crate::forms::{add, literal};
use ps_clause::ClauseForm;
use ps_io::List;
use ps_log::HeldLog;
use ps_maxsat::{Priced, Wcnf, best};
use ps_pb::{Lit, MOST_VARIABLES};
use ps_sat::{MOST_CONFLICTS, SearchError};
use std::alloc::Global;

/// Clauses of three literals, and weighted literals.
#[derive(Drop)]
pub struct Problem {
    variables: u32,
    clauses: List<(Lit, Lit, Lit)>,
    soft: List<(Lit, i64)>,
    base: i64,
}

/// What is known of the greatest value.
#[derive(Clone, Copy, PartialEq, Eq)]
pub enum Greatest {
    /// No value is 1 or more.
    NoneAbove,
    /// It is this one, of at least 1.
    Is(i128),
    /// A search was spent, or the problem is too large.
    Unsettled,
}

/// A problem of so many variables, clauses and soft literals, of weights and base from -9 to 9.
pub fn random_problem(
    alloc: Global,
    draw: &mut Draw,
    variables: u32,
    clauses: u32,
    soft: u32,
) -> Result<Problem, SearchError>
    requires some { 0 < variables }
    requires most { variables ≤ MOST_VARIABLES }
{
    let mut problem = Problem {
        variables,
        clauses: List::new(alloc),
        soft: List::new(alloc),
        base: weight(draw),
    };
    for _ in 0..clauses {
        let a = literal(draw, variables);
        let b = literal(draw, variables);
        let c = literal(draw, variables);
        if a.place() != b.place() && a.place() != c.place() && b.place() != c.place() {
            problem.clauses.push((a, b, c))?;
        }
    }
    for _ in 0..soft {
        problem.soft.push((literal(draw, variables), weight(draw)))?;
    }
    Ok(problem)
}

fn weight(draw: &mut Draw) -> i64 {
    draw.below(19) as i64 - 9
}

impl Problem {
    // The form of its clauses.
    fn hard(&self, alloc: Global) -> Result<ClauseForm, SearchError> {
        let mut hard = ClauseForm::new(alloc, self.variables.min(MOST_VARIABLES));
        for clause in self.clauses.as_slice() {
            add(&mut hard, &[clause.0, clause.1, clause.2])?;
        }
        Ok(hard)
    }

    // Its weighted literals, the weights in the problem's width.
    fn soft(&self, alloc: Global) -> Result<List<(Lit, i128)>, SearchError> {
        let mut soft = List::new(alloc);
        for term in self.soft.as_slice() {
            soft.push((term.0, term.1 as i128))?;
        }
        Ok(soft)
    }

    fn wcnf(&self, alloc: Global) -> Result<Wcnf, SearchError> {
        Ok(Wcnf {
            hard: self.hard(alloc)?,
            soft: self.soft(alloc)?,
            base: self.base as i128,
        })
    }

    /// The greatest value by search.
    pub fn by_search(&self, alloc: Global) -> Result<Greatest, SearchError> {
        let wcnf = self.wcnf(alloc)?;
        let mut log = HeldLog::new(alloc);
        if !wcnf.is_narrow() || !wcnf.is_soft_within() {
            return Ok(Greatest::Unsettled);
        }
        let priced = best(alloc, &wcnf, MOST_CONFLICTS, &mut log)?;
        Ok(match priced {
            Priced::NoneAbove { last: _ } => Greatest::NoneAbove,
            Priced::Best { value, .. } => Greatest::Is(value),
            Priced::Cut { .. } => Greatest::Unsettled,
            Priced::Spent { learned: _ } => Greatest::Unsettled,
        })
    }

    /// The greatest value by trying all assignments.
    pub fn by_trying(&self) -> Greatest {
        let mut best = 0i128;
        let end = 1u32 << self.variables.min(20);
        for mask in 0..end {
            if let Some(value) = self.value_of(mask) {
                if best < value {
                    best = value;
                }
            }
        }
        if best == 0 {
            Greatest::NoneAbove
        } else {
            Greatest::Is(best)
        }
    }

    // The value of an assignment, where it meets the clauses.
    fn value_of(&self, mask: u32) -> Option<i128> {
        for clause in self.clauses.as_slice() {
            if !(holds(mask, clause.0) || holds(mask, clause.1) || holds(mask, clause.2)) {
                return None;
            }
        }
        let mut value = self.base;
        for term in self.soft.as_slice() {
            if holds(mask, term.0) {
                value = value.wrapping_add(term.1);
            }
        }
        Some(value as i128)
    }
}

// Whether a literal is true where the bits are the values of the variables.
fn holds(mask: u32, lit: Lit) -> bool {
    let place = lit.place();
    let value = place < 32 && (mask >> place) & 1 == 1;
    value == lit.is_positive()
}
