//! Which clauses are to be looked at where a literal becomes false.

use crate::clauses::Clauses;
use crate::lit::Lit;
use crate::trail::{Trail, Value};
use std::alloc::{AllocError, Global};
use std::mem::replace;

/// A clause in which a literal is watched, with another literal of it: where that one is true, the clause
/// need not be looked at.
#[derive(Clone, Copy)]
pub(crate) struct Watch {
    pub(crate) clause: u32,
    pub(crate) other: Lit,
}

/// What a clause shows where one of its two watched literals has become false.
#[derive(Clone, Copy)]
pub(crate) enum Shown {
    /// A literal of it is true.
    Met(Lit),
    /// One that isn't false is watched in its place, beside the other one.
    Moved { to: Lit, other: Lit },
    /// All others but this watched one are false.
    Forces(Lit),
    /// All of its literals are false.
    Violated,
}

/// The watches of each literal. The first two literals of a clause are watched.
#[derive(Drop)]
pub(crate) struct Watches {
    alloc: Global,
    lists: Vec<Vec<Watch>>,
}

impl Watches {
    /// No watches of so many variables.
    pub(crate) fn new(alloc: Global, variables: usize) -> Result<Watches, AllocError> {
        let mut lists = Vec::new(alloc);
        for _ in 0..variables.saturating_mul(2) {
            lists.push(Vec::new(alloc))?;
        }
        Ok(Watches { alloc, lists })
    }

    /// Watches no clause any more.
    pub(crate) fn clear(&mut self) {
        for list in self.lists.iter_mut() {
            list.clear();
        }
    }

    /// The watches of a literal, taken out.
    pub(crate) fn take(&mut self, lit: Lit) -> Vec<Watch> {
        match self.lists.get_mut(lit.place()) {
            Some(list) => replace(list, Vec::new(self.alloc)),
            None => Vec::new(self.alloc),
        }
    }

    /// Puts the watches of a literal back.
    pub(crate) fn put(&mut self, lit: Lit, watches: Vec<Watch>) {
        if let Some(list) = self.lists.get_mut(lit.place()) {
            *list = watches;
        }
    }

    /// Watches a literal of a clause.
    pub(crate) fn add(&mut self, lit: Lit, watch: Watch) -> Result<(), AllocError> {
        if let Some(list) = self.lists.get_mut(lit.place()) {
            list.push(watch)?;
        }
        Ok(())
    }

    /// Watches the first two literals of a clause.
    pub(crate) fn attach(&mut self, clause: u32, lits: &[Lit]) -> Result<(), AllocError> {
        if let [first, second, ..] = lits {
            self.add(
                *first,
                Watch {
                    clause,
                    other: *second,
                },
            )?;
            self.add(
                *second,
                Watch {
                    clause,
                    other: *first,
                },
            )?;
        }
        Ok(())
    }
}

/// What a clause shows where a watched literal has become false.
#[inline]
pub(crate) fn visit(clauses: &mut Clauses, trail: &Trail, watch: Watch, lit: Lit) -> Shown {
    if trail.value(watch.other) == Value::True {
        return Shown::Met(watch.other);
    }
    match clauses.lits_mut(watch.clause) {
        Some(lits) => look_at(lits, trail, lit, watch.other),
        None => Shown::Met(watch.other),
    }
}

// The same of its literals. The one that has become false stands second then.
#[inline]
fn look_at(lits: &mut [Lit], trail: &Trail, lit: Lit, other: Lit) -> Shown {
    if lits.len() < 2 {
        return Shown::Met(other);
    }
    let (watched, rest) = lits.split_at_mut(2);
    if watched[0] == lit {
        watched[0] = watched[1];
        watched[1] = lit;
    }
    let first = watched[0];
    let value = trail.value(first);
    if value == Value::True {
        return Shown::Met(first);
    }
    for place in rest.iter_mut() {
        if trail.value(*place) != Value::False {
            let to = *place;
            *place = watched[1];
            watched[1] = to;
            return Shown::Moved { to, other: first };
        }
    }
    if value == Value::False {
        Shown::Violated
    } else {
        Shown::Forces(first)
    }
}
