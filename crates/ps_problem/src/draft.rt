//! Drafts of problems.
ghost use Rattle.std.specs.Prelude.{◌≡◌, ◌<◌, ◌≤◌, [], All, OnOk, OnErr, IfOk, Some, length};
ghost use Rattle.std.specs.Prelude.{slice_get, option_map};
ghost use Rattle.ps_meaning.specs.Names.{IsName};
ghost use Rattle.ps_problem.specs.declared.limits.TheConstants.{MOST_DRAFTED, MOST_NESTING};
ghost use Rattle.ps_problem.specs.Numbering.{AreOnce, same_name};
ghost use Rattle.ps_problem.specs.DraftLists.{AreMarks, root, item_of, IsDraftItem};
ghost use Rattle.ps_text.specs.Canonical.{canonical_nesting, IsReduced, IsUpper};
ghost use Rattle.ps_text.specs.Canonical.{IsReducedWeight, IsSumUpper};
ghost use Rattle.ps_text.specs.declared.limits.TheConstants.{MOST_TERMS};
ghost use Rattle.ps_problem.specs.Drafts.{arity, NameBelow, formula_at};
ghost use Rattle.ps_problem.specs.Drafts.{AreBelow, ratio_of, HasReducedValues, IsNested};
ghost use Rattle.ps_problem.specs.Drafts.{with_name, with_mark, with_formula};
ghost use Rattle.ps_problem.specs.Drafts.{with_statement, with_sum, with_question};
ghost use Rattle.ps_problem.specs.Drafts.{signed_of, IsDraftTerm};

use crate::draft_item::{DraftItem, DraftLinear, DraftQuery, DraftSentence};
use crate::names::Names;
use crate::span::Span;
use crate::{Mark, Side, Signed, Term};
use ps_io::{List, NoMemory};
use std::alloc::Global;
use std::marker::Model;

/// What a text of sentences and queries spells, as flat lists: names, formulas in postfix order,
/// and items.
#[derive(Drop)]
pub struct Draft {
    names: Names,
    marks: List<Mark>,
    ended: usize,
    spans: List<Span>,
    items: List<DraftItem>,
    alloc: Global,
}

impl Model for Draft {
    ghost use Rattle.std.specs.Coded.{codes};
    ghost use Rattle.ps_problem.specs.Codes.{formula_code};
    ghost use Rattle.ps_problem.specs.Drafts.{Drafted};

    ghost Value = { Drafted };

    ghost coded = { Prim.hlevel (codes, formula_code) };

    ghost use Rattle.ps_problem.specs.DraftLists.{drafted, IsDraft};

    ghost view = { λ d. drafted d.names d.marks d.ended d.spans d.items };

    ghost invariant = { λ d. IsDraft d.names d.marks d.ended d.spans d.items };
}

impl Draft {
    /// A draft of nothing.
    pub fn new(alloc: Global) -> Draft
        ensures { result ≡ record { names = []; «open» = []; formulas = []; items = [] } }
    {
        Draft {
            names: Names::new(alloc),
            marks: List::new(alloc),
            ended: 0,
            spans: List::new(alloc),
            items: List::new(alloc),
            alloc,
        }
    }

    /// The number of a name, from 0; a name that is new gets the next one.
    pub fn name(&mut self, text: &[u8]) -> Result<u32, NoMemory>
        requires name { IsName text.now }
        requires room { length self.old.names < MOST_DRAFTED }
        ensures number { IfOk result (λ n. slice_get self.new.names n ≡ Some text.now) }
        ensures ok { OnOk result (self.new ≡ with_name self.old text.now) }
        ensures err { OnErr result (self.new ≡ self.old) }
    {
        let number = self.names.number(text)?;
        Ok(number)
    }

    /// Adds a mark to the formula that is being made.
    pub fn mark(&mut self, mark: Mark) -> Result<(), NoMemory>
        requires name { NameBelow (length self.old.names) mark }
        requires operands { arity mark ≤ length self.old.«open» }
        ensures ok { OnOk result (self.new ≡ with_mark self.old mark) }
        ensures err { OnErr result (self.new ≡ self.old) }
    {
        self.marks.push(mark)?;
        Ok(())
    }

    /// Ends the formula that stands open, and gives its number, from 0.
    pub fn end_formula(&mut self) -> Result<u32, NoMemory>
        requires one { length self.old.«open» ≡ 1 }
        requires nesting { All (λ f. canonical_nesting f ≤ MOST_NESTING) self.old.«open» }
        requires room { length self.old.formulas < MOST_DRAFTED }
        ensures number { IfOk result (λ n. n ≡ length self.old.formulas) }
        ensures ok { OnOk result (self.new ≡ with_formula self.old) }
        ensures err { OnErr result (self.new ≡ self.old) }
    {
        let number = self.spans.len() as u32;
        let end = self.marks.len();
        self.spans.push(Span {
            start: self.ended,
            end,
        })?;
        self.ended = end;
        Ok(number)
    }

    /// Adds a sentence: the probability of a formula, perhaps given a condition, on a side of
    /// `num/den`; with an upper value, at least `num/den` and at most that.
    pub fn sentence(
        &mut self,
        formula: u32,
        given: Option<u32>,
        side: Side,
        num: u32,
        den: u32,
        upper: Option<(u32, u32)>,
    ) -> Result<(), NoMemory>
        requires formulas { AreBelow (length self.old.formulas) formula given }
        requires value { IsReduced (ratio_of (num, den)) }
        requires upper { IsUpper side (option_map ratio_of upper) }
        requires room { length self.old.items < MOST_DRAFTED }
        ensures ok { OnOk result
            (self.new ≡ with_statement self.old formula given side (num, den) upper) }
        ensures err { OnErr result (self.new ≡ self.old) }
    {
        self.items.push(DraftItem::Sentence(DraftSentence {
            formula,
            given,
            side,
            num,
            den,
            upper,
        }))
    }

    /// Adds a linear sentence: the sum of some terms on a side of a value; with an upper value, at
    /// least the one and at most the other.
    pub fn linear(
        &mut self,
        terms: &[Term],
        side: Side,
        right: Signed,
        upper: Option<Signed>,
    ) -> Result<(), NoMemory>
        requires terms { All (IsDraftTerm (length self.old.formulas)) terms.now }
        requires some { 1 ≤ length terms.now }
        requires few { length terms.now ≤ MOST_TERMS }
        requires value { IsReducedWeight (signed_of right) }
        requires upper { IsSumUpper side (option_map signed_of upper) }
        requires room { length self.old.items < MOST_DRAFTED }
        ensures ok { OnOk result (self.new ≡ with_sum self.old terms.now side right upper) }
        ensures err { OnErr result (self.new ≡ self.old) }
    {
        let terms = List::from_vec(terms.to_vec(self.alloc)?);
        self.items.push(DraftItem::Linear(DraftLinear {
            terms,
            side,
            right,
            upper,
        }))
    }

    /// Adds a query for the probability of a formula, perhaps given a condition.
    pub fn query(&mut self, formula: u32, given: Option<u32>) -> Result<(), NoMemory>
        requires formulas { AreBelow (length self.old.formulas) formula given }
        requires room { length self.old.items < MOST_DRAFTED }
        ensures ok { OnOk result (self.new ≡ with_question self.old formula given) }
        ensures err { OnErr result (self.new ≡ self.old) }
    {
        self.items
            .push(DraftItem::Query(DraftQuery { formula, given }))
    }

    pub(crate) fn names(&self) -> &Names
        ensures names { result.now ≡ self.now.names }
        ensures different { AreOnce same_name result.now }
        ensures named { All IsName result.now }
        ensures reduced { All HasReducedValues self.now.items }
        ensures nested { All IsNested self.now.items }
    {
        &self.names
    }

    // The marks of a formula that has ended.
    pub(crate) fn marks(&self, formula: u32) -> &[Mark]
        requires { formula < length self.now.formulas }
        ensures root { root self.now.names result.now ≡ formula_at self.now.formulas formula }
        ensures marks { AreMarks self.now.names result.now (root self.now.names result.now) }
    {
        let span = self.spans.as_slice()[formula as usize];
        &self.marks.as_slice()[span.start..span.end]
    }

    // The number of items.
    pub(crate) fn len(&self) -> u32
        ensures { result ≡ length self.now.items }
    {
        self.items.len() as u32
    }

    // The item of a number, from 0.
    pub(crate) fn item(&self, i: u32) -> &DraftItem
        requires { i < length self.now.items }
        ensures item { slice_get self.now.items i ≡ Some (item_of self.now.formulas result.now) }
        ensures sound { IsDraftItem (length self.now.formulas) result.now }
    {
        &self.items.as_slice()[i as usize]
    }
}
