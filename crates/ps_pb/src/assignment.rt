//! Partial assignments.
ghost use Rattle.std.specs.Prelude.{◌≡◌, length, IfOk};
ghost use Rattle.ps_pb.specs.Assignments.{place, value_of, value_at, all_unset};
ghost use Rattle.ps_pb.specs.Assignments.{with_true, with_false, without};

use crate::lit::Lit;
use ps_io::NoMemory;
use std::alloc::Global;
use std::marker::Model;

/// For each variable, from 1 on, its value if it has one.
#[derive(Drop)]
pub struct Assignment {
    values: Vec<Option<bool>>,
}

impl Model for Assignment {
    ghost use Rattle.std.specs.Prelude.{List, Option, Bool};

    ghost Value = { List (Option Bool) };

    ghost view = { λ a. a.values.items };
}

impl Assignment {
    /// The assignment of so many variables in which all are unset.
    pub fn new(alloc: Global, variables: u32) -> Result<Assignment, NoMemory>
        ensures { IfOk result (λ a. a ≡ all_unset variables) }
    {
        let values = vec![in alloc; None; variables as usize]?;
        Ok(Assignment { values })
    }

    /// An equal assignment.
    pub fn copy(&self, alloc: Global) -> Result<Assignment, NoMemory>
        ensures { IfOk result (λ a. a ≡ self.now) }
    {
        let values = Vec::from_slice(alloc, self.values.as_slice())?;
        Ok(Assignment { values })
    }

    /// The number of variables.
    pub fn len(&self) -> usize
        ensures { result ≡ length self.now }
    {
        self.values.len()
    }

    /// The value of a variable. `None` where it is unset, or out of range.
    #[tactic(auto, unfolding(crate::specs::Assignments::value_at))]
    pub fn value(&self, var: u32) -> Option<bool>
        ensures { result ≡ value_at self.now var }
    {
        if var == 0 {
            return None;
        }
        match self.values.get(var as usize - 1) {
            Some(value) => *value,
            None => None,
        }
    }

    /// The value of a literal. `None` where its variable is unset, or out of range.
    #[tactic(auto, unfolding(crate::specs::Assignments::value_of))]
    pub fn value_of(&self, lit: Lit) -> Option<bool>
        ensures { result ≡ value_of self.now lit }
    {
        match self.values.get(lit.place()) {
            Some(Some(b)) => Some(*b == lit.is_positive()),
            _ => None,
        }
    }

    /// Sets a literal true. Nothing happens where its variable is out of range.
    #[tactic(auto, unfolding(crate::specs::Assignments::with_true))]
    pub fn set(&mut self, lit: Lit)
        ensures { self.new ≡ with_true self.old lit }
    {
        let place = lit.place();
        if place < self.values.len() {
            self.values[place] = Some(lit.is_positive());
        }
    }

    /// Sets a literal false. Nothing happens where its variable is out of range.
    #[tactic(auto, unfolding(crate::specs::Assignments::with_false))]
    pub fn set_false(&mut self, lit: Lit)
        ensures { self.new ≡ with_false self.old lit }
    {
        let place = lit.place();
        if place < self.values.len() {
            self.values[place] = Some(!lit.is_positive());
        }
    }

    /// Unsets a variable. Nothing happens where it is out of range.
    #[tactic(auto, unfolding(crate::specs::Assignments::without))]
    pub fn unset(&mut self, var: u32)
        ensures { self.new ≡ without self.old var }
    {
        if var == 0 {
            return;
        }
        let place = var as usize - 1;
        if place < self.values.len() {
            self.values[place] = None;
        }
    }
}
