//! The trail.
ghost use Rattle.std.specs.Prelude.{◌≡◌, ◌≤◌, ◌<◌, [], length, IfOk, ℕ, take};
ghost use Rattle.std.specs.Prelude.{is_none, if◌then◌else◌};
ghost use Rattle.ps_pb.specs.Assignments.{value_at};
ghost use Rattle.ps_learn.specs.Trails.{values, level, decided, implied, up_to};
ghost use Rattle.ps_learn.specs.Trails.{IsFresh, AreFresh, AreLevels};
ghost use Rattle.ps_learn.specs.Lookups.{level_of, reason_of, lit_at};
ghost use Rattle.ps_learn.specs.Cuts.{IsCutBy};

use crate::entry::TrailEntry;
use ps_io::NoMemory;
use ps_pb::{Assignment, Lit};
use std::alloc::Global;
use std::marker::Model;

/// Literals in the order in which they were set, each decided, at a level of its own, or implied.
/// All memory is taken at its making.
#[derive(Drop)]
pub struct Trail {
    values: Assignment,
    slots: Vec<TrailEntry>,
    used: usize,
    level: u32,
}

impl Model for Trail {
    ghost use Rattle.ps_learn.specs.Trails.{Trail as TrailValue};
    ghost use Rattle.ps_learn.specs.Fields.{trail_of, IsTrail};

    ghost Value = { TrailValue };

    ghost view = { λ t. trail_of t.values t.slots.items t.used };

    ghost invariant = { λ t. IsTrail t.values t.slots.items t.used t.level };
}

impl Trail {
    /// The trail without literals over so many variables.
    pub fn new(alloc: Global, variables: u32) -> Result<Trail, NoMemory>
        ensures { IfOk result (λ t. t ≡ record { variables = variables; entries = [] }) }
    {
        Ok(Trail {
            values: Assignment::new(alloc, variables)?,
            slots: empty_slots(alloc, variables as usize)?,
            used: 0,
            level: 0,
        })
    }

    /// The values of the variables.
    pub fn values(&self) -> &Assignment
        ensures value { result.now ≡ values self.now }
        ensures len { length result.now ≡ self.now.variables }
    {
        &self.values
    }

    /// The number of variables.
    pub fn variables(&self) -> u32
        ensures { result ≡ self.now.variables }
    {
        self.values.len() as u32
    }

    /// The values of the variables, without the trail.
    pub fn into_values(self) -> Assignment
        ensures { result ≡ values self }
    {
        self.values
    }

    /// The literals with their reasons and levels, in the order in which they were set.
    pub fn entries(&self) -> &[TrailEntry]
        ensures entries { result.now ≡ self.now.entries }
        ensures fresh { AreFresh self.now.variables self.now.entries }
        ensures levels { AreLevels self.now.entries }
    {
        &self.slots[..self.used]
    }

    /// Sets a literal on a new level.
    pub fn decide(&mut self, lit: Lit)
        requires { IsFresh self.old.variables (values self.old) lit }
        ensures { self.new ≡ decided lit self.old }
    {
        let level = self.level + 1;
        self.slots[self.used] = TrailEntry {
            lit,
            reason: None,
            level,
        };
        self.used += 1;
        self.level = level;
        self.values.set(lit);
    }

    /// Sets a literal that the constraint of an id forces, on the present level.
    pub fn imply(&mut self, lit: Lit, reason: u64)
        requires { IsFresh self.old.variables (values self.old) lit }
        ensures { self.new ≡ implied lit reason self.old }
    {
        self.slots[self.used] = TrailEntry {
            lit,
            reason: Some(reason),
            level: self.level,
        };
        self.used += 1;
        self.values.set(lit);
    }

    /// Unsets what stands above a level.
    pub fn cut_to(&mut self, most: u32)
        requires { most ≤ level self.old }
        ensures kept { self.new ≡ up_to most self.old }
        ensures variables { self.new.variables ≡ self.old.variables }
        ensures prefix { (k : ℕ) × (self.new.entries ≡ take k self.old.entries) }
    {
        // A field is read, so that what holds of each trail is known.
        let _ = &self.values;
        self.cut_all(most)
    }

    fn cut_all(&mut self, most: u32)
        ensures kept { self.new ≡ up_to most self.old }
        ensures variables { self.new.variables ≡ self.old.variables }
    {
        'cut: while self.take_above(most) {}
    }

    /// The value of a variable. `None` where it is unset, or out of range.
    pub fn value(&self, var: u32) -> Option<bool>
        ensures { result ≡ value_at (values self.now) var }
    {
        self.values.value(var)
    }

    /// How many of the literals were decided.
    pub fn level(&self) -> u32
        ensures { result ≡ level self.now }
    {
        self.level
    }

    /// The level of a variable. `None` where it is unset, or out of range.
    pub fn level_of(&self, var: u32) -> Option<u32>
        ensures { result ≡ level_of var self.now }
    {
        for entry in self.entries() {
            if entry.lit.variable() == var {
                return Some(entry.level);
            }
        }
        None
    }

    /// The id of the constraint that forced a variable. `None` where it was decided, is unset, or is
    /// out of range.
    pub fn reason_of(&self, var: u32) -> Option<u64>
        ensures { result ≡ reason_of var self.now }
    {
        for entry in self.entries() {
            if entry.lit.variable() == var {
                return entry.reason;
            }
        }
        None
    }

    /// The literal at a place, from 0 on. `None` where there is none.
    pub fn at(&self, place: u32) -> Option<Lit>
        ensures { result ≡ lit_at place self.now }
    {
        match self.entries().get(place as usize) {
            Some(entry) => Some(entry.lit),
            None => None,
        }
    }

    // Takes the last literal back where it stands above a level.
    fn take_above(&mut self, most: u32) -> bool
        ensures same { up_to most self.new ≡ up_to most self.old }
        ensures variables { self.new.variables ≡ self.old.variables }
        ensures moved { IsCutBy result self.old self.new most }
    {
        // A field is read, so that what holds of each trail is known.
        let _ = &self.values;
        if self.used == 0 {
            return false;
        }
        let last = &self.slots[self.used - 1];
        if last.level <= most {
            return false;
        }
        let variable = last.lit.variable();
        let decided = decisions(last);
        self.level -= decided;
        self.used -= 1;
        self.values.unset(variable);
        true
    }
}

// How many decisions an entry is.
fn decisions(entry: &TrailEntry) -> u32
    ensures { result ≡ (if is_none entry.now.reason then 1 else 0) }
{
    if entry.reason.is_none() { 1 } else { 0 }
}

// As many entries as there are variables.
fn empty_slots(alloc: Global, variables: usize) -> Result<Vec<TrailEntry>, NoMemory>
    ensures { IfOk result (λ slots. length slots.items ≡ variables) }
{
    let mut slots = Vec::with_capacity(alloc, variables)?;
    for _ in 0..variables {
        slots.push(TrailEntry {
            lit: Lit::default(),
            reason: None,
            level: 0,
        })?;
    }
    Ok(slots)
}
