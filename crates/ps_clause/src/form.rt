//! Clauses over variables.
ghost use Rattle.std.specs.Prelude.{◌≡◌, ◌≤◌, ◌<◌, length, IfOk, OnOk, OnErr, All, option_copied};
ghost use Rattle.ps_formula.specs.Nodes.{AreNodes};
ghost use Rattle.ps_pb.specs.Assignments.{place, AreDifferent};
ghost use Rattle.ps_pb.specs.Weights.{clause_of};
ghost use Rattle.ps_pb.specs.declared.limits.TheConstants.{MOST_VARIABLES};
ghost use Rattle.ps_clause.specs.Forms.{Form, form_of, empty_form, with_clause, clause_at};
ghost use Rattle.ps_clause.specs.Forms.{is_atom_variable, AreInside, HasClauses};
ghost use Rattle.ps_clause.specs.Decided.{AtomsDecide};
ghost use Rattle.ps_clause.specs.Limits.{most_clauses};

use crate::clauses::{clauses_of_nodes, others_of};
use ps_formula::Node;
use ps_io::{List, NoMemory};
use ps_pb::{Constraint, Lit, clause};
use std::alloc::Global;
use std::marker::Model;

/// Clauses over variables that are numbered from 1. Each variable is an atom's or another node's.
/// Where each atom's variable has a value, and no clause is violated or forces a literal, each
/// variable has a value.
#[derive(Drop)]
pub struct ClauseForm {
    alloc: Global,
    variables: u32,
    others: List<bool>,
    clauses: List<Constraint>,
}

impl Model for ClauseForm {
    ghost use Rattle.ps_clause.specs.Forms.{Form, form_over};
    ghost use Rattle.ps_clause.specs.Kept.{IsKept};

    ghost Value = { Form };

    ghost view = { λ f. form_over f.variables f.others f.clauses };

    ghost invariant = { λ f. IsKept (form_over f.variables f.others f.clauses) };
}

impl ClauseForm {
    /// The form of so many variables, each an atom's, without clauses.
    pub fn new(alloc: Global, variables: u32) -> ClauseForm
        requires { variables ≤ MOST_VARIABLES }
        ensures { result ≡ empty_form variables }
    {
        ClauseForm {
            alloc,
            variables,
            others: List::new(alloc),
            clauses: List::new(alloc),
        }
    }

    /// The number of variables. Each clause is one of different literals of these, and where each
    /// atom's variable has a value the clauses decide all others.
    pub fn variables(&self) -> u32
        ensures value { result ≡ self.now.variables }
        ensures within { result ≤ MOST_VARIABLES }
        ensures decided { AtomsDecide self.now }
        ensures clauses { HasClauses self.now }
        ensures inside { AreInside self.now }
    {
        self.variables
    }

    /// Whether a variable is an atom's. One that isn't in the form is none.
    pub fn is_atom(&self, var: u32) -> bool
        ensures { result ≡ is_atom_variable self.now var }
    {
        if var == 0 || self.variables < var {
            return false;
        }
        match self.others.get(var as usize - 1) {
            Some(other) => !*other,
            None => true,
        }
    }

    /// The number of clauses.
    pub fn clauses(&self) -> u32
        ensures { result ≡ length self.now.clauses }
    {
        self.clauses.len() as u32
    }

    /// The clause of a number, from 1 on; `None` where there is none.
    pub fn clause(&self, id: u32) -> Option<&Constraint>
        ensures { option_copied result ≡ clause_at self.now id }
    {
        if id == 0 {
            return None;
        }
        self.clauses.get(id as usize - 1)
    }

    /// Adds the clause of some literals at the end.
    pub fn add(&mut self, lits: &[Lit]) -> Result<(), NoMemory>
        requires within { All (λ l. place l < self.old.variables) lits.now }
        requires once { AreDifferent lits.now }
        requires room { length self.old.clauses < most_clauses }
        ensures ok { OnOk result (self.new ≡ with_clause self.old (clause_of lits.now)) }
        ensures err { OnErr result (self.new ≡ self.old) }
    {
        let constraint = clause(self.alloc, lits)?;
        self.clauses.push(constraint)
    }

    /// An equal form.
    pub fn copy(&self, alloc: Global) -> Result<ClauseForm, NoMemory>
        ensures { IfOk result (λ f. f ≡ self.now) }
    {
        let others = List::from_vec(self.others.as_slice().to_vec(alloc)?);
        let clauses = copies(alloc, self.clauses.as_slice())?;
        Ok(ClauseForm {
            alloc,
            variables: self.variables,
            others,
            clauses,
        })
    }

    /// The clauses, in their order.
    pub fn into_clauses(self) -> List<Constraint>
        ensures { result ≡ self.clauses }
    {
        self.clauses
    }

    // The form of all nodes.
    pub(crate) fn of_nodes(alloc: Global, nodes: &[Node]) -> Result<ClauseForm, NoMemory>
        requires sound { AreNodes nodes.now }
        requires most { length nodes.now ≤ MOST_VARIABLES }
        ensures { IfOk result (λ form. form ≡ form_of nodes.now) }
    {
        let others = others_of(alloc, nodes)?;
        let clauses = clauses_of_nodes(alloc, nodes)?;
        Ok(ClauseForm {
            alloc,
            variables: nodes.len() as u32,
            others,
            clauses,
        })
    }
}

fn copies(alloc: Global, constraints: &[Constraint]) -> Result<List<Constraint>, NoMemory>
    ensures { IfOk result (λ cs. cs ≡ constraints.now) }
{
    let mut copies = List::new(alloc);
    for constraint in constraints {
        copies.push(constraint.copy(alloc)?)?;
    }
    Ok(copies)
}
