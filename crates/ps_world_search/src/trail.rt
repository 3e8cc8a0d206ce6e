//! The literals that are set.

use crate::lit::Lit;
use std::alloc::{AllocError, Global};

/// The value of a literal.
#[derive(Clone, Copy, PartialEq, Debug)]
pub(crate) enum Value {
    /// It has none yet.
    Open,
    /// True.
    True,
    /// False.
    False,
}

/// Why a literal is set.
#[derive(Clone, Copy, PartialEq, Debug)]
pub(crate) enum Reason {
    /// It was decided, or is a fact.
    Chosen,
    /// The other literals of this clause are false.
    Clause(u32),
    /// The goal couldn't be reached without it.
    Goal,
}

/// How a variable came to its value.
#[derive(Clone, Copy)]
pub(crate) struct Standing {
    /// Its place among the literals that are set.
    pub(crate) place: usize,
    /// How many decisions were made before.
    pub(crate) level: usize,
    pub(crate) reason: Reason,
    /// Whether it follows from the goal, where no decision was made before.
    pub(crate) is_of_goal: bool,
}

impl Standing {
    /// That of a variable that has no value.
    fn none() -> Standing {
        Standing {
            place: 0,
            level: 0,
            reason: Reason::Chosen,
            is_of_goal: false,
        }
    }
}

/// The literals that are set, in their order.
#[derive(Drop)]
pub(crate) struct Trail {
    /// By the place of a literal.
    values: Vec<Value>,
    /// By variable.
    standings: Vec<Standing>,
    lits: Vec<Lit>,
    used: usize,
    /// The place of each decision.
    decisions: Vec<usize>,
    /// So many literals have been followed.
    followed: usize,
}

impl Trail {
    /// No literal of so many variables is set.
    pub(crate) fn new(alloc: Global, variables: usize) -> Result<Trail, AllocError> {
        Ok(Trail {
            values: vec![in alloc; Value::Open; variables.saturating_mul(2)]?,
            standings: vec![in alloc; Standing::none(); variables]?,
            lits: vec![in alloc; Lit::new(0, true); variables]?,
            used: 0,
            decisions: Vec::new(alloc),
            followed: 0,
        })
    }

    /// How many literals are set.
    pub(crate) fn len(&self) -> usize {
        self.used
    }

    /// How many variables there are.
    pub(crate) fn variables(&self) -> usize {
        self.lits.len()
    }

    /// How many decisions were made.
    pub(crate) fn level(&self) -> usize {
        self.decisions.len()
    }

    /// The value of a literal.
    #[inline]
    pub(crate) fn value(&self, lit: Lit) -> Value {
        self.values.get(lit.place()).copied().unwrap_or(Value::Open)
    }

    /// How a literal's variable came to its value.
    #[inline]
    pub(crate) fn standing(&self, lit: Lit) -> Standing {
        self.standings
            .get(lit.variable())
            .copied()
            .unwrap_or(Standing::none())
    }

    /// The literal at a place.
    pub(crate) fn at(&self, place: usize) -> Option<Lit> {
        self.lits.get(place).copied()
    }

    /// The next literal that hasn't been followed; it has, from now on.
    #[inline]
    pub(crate) fn next(&mut self) -> Option<Lit> {
        if self.followed >= self.used {
            return None;
        }
        let lit = self.lits.get(self.followed).copied();
        self.followed = self.followed.saturating_add(1);
        lit
    }

    /// From now on literals are set behind one decision more.
    pub(crate) fn open_level(&mut self) -> Result<(), AllocError> {
        self.decisions.push(self.used)?;
        Ok(())
    }

    /// Sets a literal that is open.
    #[inline]
    pub(crate) fn set(&mut self, lit: Lit, reason: Reason, is_of_goal: bool) {
        self.write(lit, Value::True);
        self.write(lit.opposite(), Value::False);
        if let Some(place) = self.lits.get_mut(self.used) {
            *place = lit;
        }
        if let Some(standing) = self.standings.get_mut(lit.variable()) {
            *standing = Standing {
                place: self.used,
                level: self.decisions.len(),
                reason,
                is_of_goal,
            };
        }
        self.used = self.used.saturating_add(1);
    }

    // Notes the value of a literal.
    #[inline]
    fn write(&mut self, lit: Lit, value: Value) {
        if let Some(place) = self.values.get_mut(lit.place()) {
            *place = value;
        }
    }

    /// Takes back the last literal that was set behind more decisions than so many.
    pub(crate) fn take_above(&mut self, level: usize) -> Option<Lit> {
        let start = self.decisions.get(level).copied()?;
        if self.used <= start {
            self.decisions.truncate(level);
            self.followed = self.used;
            return None;
        }
        self.used = self.used.saturating_sub(1);
        let lit = self.lits.get(self.used).copied()?;
        self.write(lit, Value::Open);
        self.write(lit.opposite(), Value::Open);
        Some(lit)
    }

    /// Takes back all literals.
    pub(crate) fn clear(&mut self) {
        self.values.fill(Value::Open);
        self.decisions.clear();
        self.used = 0;
        self.followed = 0;
    }
}
