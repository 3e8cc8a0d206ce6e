//! What has been seen of a trail, and the goal's slack over it.
ghost use Rattle.std.specs.Prelude.{◌≡◌, IfOk};
ghost use Rattle.ps_pb.specs.Weights.{IsWithin};
ghost use Rattle.ps_pb.specs.Constraints.{slack};
ghost use Rattle.ps_learn.specs.Trails.{values, up_to, IsFresh, level};
ghost use Rattle.ps_sat.specs.Sights.{with_entry, IsNext, AreCoefficients, AreByCoefficient};
ghost use Rattle.ps_sat.specs.Sights.{unseen};
ghost use Rattle.ps_sat.specs.Scans.{ScansOne, FirstForced};

use crate::scanning::State;
use crate::visiting::slot;
use ps_io::NoMemory;
use ps_learn::{Trail, TrailEntry};
use ps_pb::{Assignment, Constraint, Lit, slack};
use std::alloc::Global;
use std::marker::Model;

/// What has been seen of a trail, and the goal's slack over it. All memory is taken at its making.
#[derive(Drop)]
pub(crate) struct Sight {
    seen: Trail,
    goal: Constraint,
    // What the goal loses where a literal is false, at the place of the literal's list.
    coefficients: Vec<i128>,
    // The goal's terms, by rising coefficient.
    terms: Vec<(Lit, i128)>,
    slack: i128,
}

impl Model for Sight {
    ghost use Rattle.ps_sat.specs.Sights.{Sighting, IsSight};

    ghost Value = { Sighting };

    ghost view = { λ s. record { goal = s.goal; seen = s.seen } };

    ghost invariant = { λ s. IsSight s.seen s.goal s.coefficients.items s.terms.items s.slack };
}

impl Sight {
    /// Nothing has been seen of a trail over so many variables.
    pub fn new(alloc: Global, goal: &Constraint, variables: u32) -> Result<Sight, NoMemory>
        requires { IsWithin variables goal.now }
        ensures { IfOk result (λ s. s ≡ unseen goal.now variables) }
    {
        // Read for its clauses: the goal is in the form in which constraints are kept.
        let _terms = goal.terms();
        let coefficients = coefficients_of(alloc, goal, variables)?;
        let terms = terms_of(alloc, goal)?;
        let seen = Trail::new(alloc, variables)?;
        let slack = slack(goal, seen.values());
        Ok(Sight {
            seen,
            goal: goal.copy(alloc)?,
            coefficients,
            terms,
            slack,
        })
    }

    /// What has been seen.
    pub fn trail(&self) -> &Trail
        ensures { result.now ≡ self.now.seen }
    {
        &self.seen
    }

    /// The goal's slack over what has been seen.
    pub fn slack_now(&self) -> i128
        ensures { result ≡ slack self.now.goal (values self.now.seen) }
    {
        self.slack
    }

    /// Sees one entry more.
    pub fn see(&mut self, entry: &TrailEntry)
        requires fresh { IsFresh self.old.seen.variables (values self.old.seen) entry.now.lit }
        requires level { IsNext self.old.seen entry.now }
        ensures goal { self.new.goal ≡ self.old.goal }
        ensures seen { self.new.seen ≡ with_entry self.old.seen entry.now }
    {
        self.slack -= self.coefficients[slot(entry.lit.opposite())];
        match entry.reason {
            None => self.seen.decide(entry.lit),
            Some(id) => self.seen.imply(entry.lit, id),
        }
    }

    /// Takes back what was seen above a level, and gives the slack back.
    pub fn cut_to(&mut self, most: u32)
        ensures goal { self.new.goal ≡ self.old.goal }
        ensures seen { self.new.seen ≡ up_to most self.old.seen }
    {
        // Called for its clauses: levels rise.
        let _entries = self.seen.entries();
        if most < self.seen.level() {
            self.slack = slack_to(
                &self.goal,
                &self.coefficients,
                &self.seen,
                &self.slack,
                most,
            );
            self.seen.cut_to(most);
        }
    }

    /// What the goal shows.
    pub fn state(&self) -> State
        ensures { ScansOne self.now.goal (values self.now.seen) result }
    {
        if self.slack < 0 {
            return State::Violated;
        }
        match last_forced(&self.goal, &self.terms, self.seen.values(), &self.slack) {
            Some(lit) => State::Forced(lit),
            None => State::Idle,
        }
    }
}

// The coefficient of each literal in the goal, 0 where it has none.
fn coefficients_of(alloc: Global, goal: &Constraint, variables: u32) -> Result<Vec<i128>, NoMemory>
    requires { IsWithin variables goal.now }
    ensures { IfOk result (λ xs. AreCoefficients variables goal.now xs.items) }
{
    let mut coefficients = vec![in alloc; 0; variables as usize * 2]?;
    for term in goal.terms().as_slice() {
        coefficients[slot(term.0)] += term.1;
    }
    Ok(coefficients)
}

// The goal's terms, by rising coefficient.
fn terms_of(alloc: Global, goal: &Constraint) -> Result<Vec<(Lit, i128)>, NoMemory>
    ensures { IfOk result (λ terms. AreByCoefficient goal.now terms.items) }
{
    let mut terms = Vec::from_slice(alloc, goal.terms().as_slice())?;
    terms.sort_by_key(|term| term.1.unsigned_abs())?;
    Ok(terms)
}

// The slack after what was seen up to a level.
fn slack_to(goal: &Constraint, coefficients: &[i128], seen: &Trail, now: &i128, most: u32) -> i128
    requires inside { IsWithin seen.now.variables goal.now }
    requires coefficients { AreCoefficients seen.now.variables goal.now coefficients.now }
    requires now { now.now ≡ slack goal.now (values seen.now) }
    ensures { result ≡ slack goal.now (values (up_to most seen.now)) }
{
    // Read for its clauses: the goal is in the form in which constraints are kept.
    let _terms = goal.terms();
    let mut slack = *now;
    let mut left = seen.entries().len();
    'back: while 0 < left {
        let last = &seen.entries()[left - 1];
        if last.level <= most {
            return slack;
        }
        slack += coefficients[slot(last.lit.opposite())];
        left -= 1;
    }
    slack
}

// A literal that the goal forces; the first of the greatest coefficient.
fn last_forced(goal: &Constraint, terms: &[(Lit, i128)], a: &Assignment, room: &i128) -> Option<Lit>
    requires terms { AreByCoefficient goal.now terms.now }
    requires room { room.now ≡ slack goal.now a.now }
    ensures { FirstForced goal.now a.now result }
{
    // Read for its clauses: the goal is in the form in which constraints are kept.
    let _terms = goal.terms();
    let mut left = terms.len();
    'back: while 0 < left {
        left -= 1;
        let term = &terms[left];
        if term.1 <= *room {
            return None;
        }
        if a.value_of(term.0).is_none() {
            let lit = term.0;
            // Called for its clauses: a literal is of a variable, numbered from 1 on.
            let _variable = lit.variable();
            return Some(lit);
        }
    }
    None
}
