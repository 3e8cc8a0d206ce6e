//! A problem: atoms by name, formulas, sentences and queries.
ghost use Rattle.std.specs.Prelude.{◌≡◌, ◌≤◌, All, length, map, option_copied, option_map, slice_get};
ghost use Rattle.std.specs.Prelude.{IfSome};
ghost use Rattle.ps_formula.specs.Nodes.{AreNodes, AtomBelow};
ghost use Rattle.ps_formula.specs.declared.limits.TheConstants.{MOST_ATOMS};
ghost use Rattle.ps_problem.specs.declared.limits.TheConstants.{MOST_BOUNDS, MOST_QUERIES};
ghost use Rattle.ps_problem.specs.Problems.{parts_of, AreParts, HasNodes, IsBoundIn};
ghost use Rattle.ps_problem.specs.Problems.{bounds_in, bound_at};
ghost use Rattle.ps_problem.specs.Soundness.{IsProblem};
ghost use Rattle.ps_problem.specs.Shown.{shown};
ghost use Rattle.ps_problem.specs.Rows.{rows_in, IsRow};

use crate::sentence::bound_in;
use crate::{BoundAt, Queries, Row, Sentences};
use ps_formula::Formulas;
use ps_io::List;
use std::marker::Model;

/// A problem within the limits: at most `MOST_ATOMS` atoms and `MOST_NODES` nodes, as `ps_formula`
/// has them, `MOST_BOUNDS` bounds and `MOST_QUERIES` queries.
#[derive(Drop)]
pub struct Problem {
    names: List<Vec<u8>>,
    formulas: Formulas,
    sentences: Sentences,
    rows: List<Row>,
    queries: Queries,
}

impl Model for Problem {
    ghost use Rattle.std.specs.Prelude.{◌≡◌, map};
    ghost use Rattle.ps_problem.specs.Problems.{Parts, parts_of};
    ghost use Rattle.ps_problem.specs.Rows.{rows_in};
    ghost use Rattle.ps_problem.specs.Soundness.{IsProblem};

    ghost Value = { Parts };

    ghost view = { λ p. parts_of (map (λ v. v.items) p.names) p.formulas p.sentences p.queries };

    ghost invariant = { λ p.
        IsProblem (parts_of (map (λ v. v.items) p.names) p.formulas p.sentences p.queries)
        × (p.rows ≡ rows_in p.sentences) };
}

impl Problem {
    // The problem of parts that are in order, with their bounds.
    pub(crate) fn of(
        names: List<Vec<u8>>,
        formulas: Formulas,
        sentences: Sentences,
        rows: List<Row>,
        queries: Queries,
    ) -> Problem
        requires is { IsProblem (parts_of (map (λ v. v.items) names) formulas sentences queries) }
        requires rows { rows ≡ rows_in sentences }
        ensures { result ≡ parts_of (map (λ v. v.items) names) formulas sentences queries }
    {
        Problem {
            names,
            formulas,
            sentences,
            rows,
            queries,
        }
    }

    /// The number of atoms.
    pub fn atoms(&self) -> u16
        ensures atoms { result ≡ length self.now.names }
        ensures few { result ≤ MOST_ATOMS }
    {
        self.names.len() as u16
    }

    /// The name of an atom, by its number from 0; `None` where there is no such atom.
    pub fn name(&self, atom: u16) -> Option<&[u8]>
        ensures name { option_copied result ≡ slice_get self.now.names atom }
    {
        let name = self.names.get(atom as usize)?;
        Some(name.as_slice())
    }

    /// The formulas, as nodes.
    pub fn formulas(&self) -> &Formulas
        ensures nodes { result.now ≡ self.now.nodes }
        ensures sound { AreNodes result.now }
        ensures atoms { All (AtomBelow (length self.now.names)) result.now }
    {
        &self.formulas
    }

    /// The sentences in order.
    pub fn sentences(&self) -> &Sentences
        ensures sentences { result.now ≡ self.now.sentences }
        // What every problem is: that of some lawful items within the limits.
        ensures sound { IsProblem self.now }
    {
        &self.sentences
    }

    /// The queries in order.
    pub fn queries(&self) -> &Queries
        ensures queries { result.now ≡ self.now.queries }
        ensures sound { All (λ q. HasNodes self.now.nodes q.formula q.given q.both) result.now }
        ensures few { length result.now ≤ MOST_QUERIES }
    {
        &self.queries
    }

    /// The number of bounds; an interval has two.
    pub fn bounds(&self) -> u32
        ensures bounds { result ≡ length (bounds_in self.now.sentences) }
        ensures few { result ≤ MOST_BOUNDS }
    {
        self.rows.len() as u32
    }

    /// A bound by its number from 1, over the sentences in order; `None` where there is no such
    /// bound.
    pub fn bound(&self, i: u32) -> Option<BoundAt<'_>>
        ensures bound { option_map shown result ≡ bound_at self.now.sentences i }
        ensures sound { IfSome result (λ b. IsBoundIn self.now.nodes (shown b)) }
    {
        let place = i.checked_sub(1)?;
        bound_in(self.sentences.as_slice(), place)
    }

    /// The rows of all bounds in order, those of sentence 1 first.
    pub fn rows(&self) -> &[Row]
        ensures rows { result.now ≡ rows_in self.now.sentences }
        ensures sound { All (IsRow self.now.nodes) result.now }
        ensures parts { AreParts self.now }
        ensures few { length result.now ≤ MOST_BOUNDS }
    {
        self.rows.as_slice()
    }
}
