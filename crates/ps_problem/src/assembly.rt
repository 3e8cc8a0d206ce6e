//! The making of a problem.
ghost use Rattle.std.specs.Prelude.{◌≡◌, ◌++◌, ◌<◌, ◌≤◌, ◌+◌, [], ◌∷◌, All, OnOk, IfOk, IfErr};
ghost use Rattle.std.specs.Prelude.{length, nat_lt, map, option_map, IfSome, if◌then◌else◌};
ghost use Rattle.ps_problem.specs.declared.limits.TheConstants.{GREATEST_SCALE, MOST_BOUNDS};
ghost use Rattle.ps_problem.specs.declared.draft_item.DraftItem.TheVariants as items;
ghost use Rattle.ps_problem.specs.declared.sentence.Sentence.TheVariants as sentences;
ghost use Rattle.ps_problem.specs.Problems.{name_at};
ghost use Rattle.ps_problem.specs.Rows.{rows_in, HasSmallRights};
ghost use Rattle.ps_problem.specs.Scales.{scaled, fraction_of, IsNumber, AreNumbers};
ghost use Rattle.ps_problem.specs.Builds.{TellsExcess, IsBuilt};
ghost use Rattle.ps_problem.specs.Making.{IsExcess, bound_on, sentence_on, linear_on, IsItemAt};
ghost use Rattle.ps_problem.specs.Making.{SentencesMade, QueriesMade};

use crate::building::Building;
use crate::draft_item::{DraftItem, DraftLinear, DraftSentence};
use crate::excess::Excess;
use crate::fault::Fault;
use crate::limits::{MOST_BOUNDS, MOST_QUERIES};
use crate::names::Names;
use crate::rows::push_rows;
use crate::scale::{small_scale, whole};
use crate::{
    Bound, BuildError, Draft, Linear, LinearTerms, Problem, Queries, Query, Row, Sentence,
    Sentences, Side, Signed,
};
use ps_io::{List, NoMemory};
use std::alloc::Global;

// The number of bounds of a sentence that is an interval or not.
fn count(is_interval: bool) -> usize
    ensures count { result ≡ (if is_interval then 2 else 1) }
    ensures few { result ≤ 2 }
{
    if is_interval { 2 } else { 1 }
}

// The bound on a query's formula.
fn bound(query: Query, side: Side, num: u32, den: u32) -> Bound
    ensures { result ≡ bound_on query side num den }
{
    Bound {
        formula: query.formula,
        given: query.given,
        both: query.both,
        side,
        num,
        den,
    }
}

// The sentence on a query's formula.
fn sentence(query: Query, item: DraftSentence) -> Sentence
    ensures { result ≡ sentence_on query item }
{
    let first = bound(query, item.side, item.num, item.den);
    let second = match item.upper {
        Some((num, den)) => Some(bound(query, Side::AtMost, num, den)),
        None => None,
    };
    Sentence::Plain { first, second }
}

// An upper value times a scale.
fn whole_upper(scale: u32, upper: Option<Signed>) -> Option<i64>
    requires upper { IfSome upper IsNumber }
    requires small { scale ≤ GREATEST_SCALE }
    ensures { result ≡ option_map (λ u. scaled scale (fraction_of u)) upper }
{
    match upper {
        Some(upper) => Some(whole(scale, upper)),
        None => None,
    }
}

// The sentence of an item over terms by node.
fn linear(terms: LinearTerms, scale: u32, item: &DraftLinear) -> Sentence
    requires numbers { AreNumbers item.now }
    requires small { scale ≤ GREATEST_SCALE }
    ensures { result ≡ sentences.Linear (linear_on terms scale item.now) }
{
    Sentence::Linear(Linear {
        terms,
        scale,
        side: item.side,
        right: whole(scale, item.right),
        upper: whole_upper(scale, item.upper),
    })
}

// Names by number.
fn copies(alloc: Global, names: &Names, numbers: &[u32]) -> Result<List<Vec<u8>>, NoMemory>
    requires { All (λ n. n < length names.now) numbers.now }
    ensures { IfOk result (λ r. map (λ v. v.items) r ≡ map (name_at names.now) numbers.now) }
{
    let mut texts = List::new(alloc);
    for number in numbers {
        let text = names.text(*number).to_vec(alloc)?;
        texts.push(text)?;
    }
    Ok(texts)
}

// The parts of a problem as far as they are made.
#[derive(Drop)]
pub(crate) struct Assembly {
    building: Building,
    sentences: Sentences,
    rows: List<Row>,
    queries: Queries,
}

impl Assembly {
    // Whether the bounds of one more sentence, an interval or not, are too many.
    fn is_full(&self, is_interval: bool) -> bool
        ensures { result ≡ nat_lt MOST_BOUNDS
            (length self.now.rows + (if is_interval then 2 else 1)) }
    {
        self.rows.len() > MOST_BOUNDS - count(is_interval)
    }

    // Puts a sentence behind those before it.
    fn push(&mut self, alloc: Global, sentence: Sentence) -> Result<(), NoMemory>
        requires { HasSmallRights sentence }
        ensures building { OnOk result (self.new.building ≡ self.old.building) }
        ensures rows { OnOk result (self.new.rows ≡ self.old.rows ++ rows_in (sentence ∷ [])) }
        ensures sentences { OnOk result (self.new.sentences ≡ self.old.sentences ++ sentence ∷ []) }
        ensures queries { OnOk result (self.new.queries ≡ self.old.queries) }
    {
        push_rows(alloc, &mut self.rows, &sentence)?;
        self.sentences.push(sentence)
    }

    // Makes a plain sentence.
    fn plain(
        &mut self,
        alloc: Global,
        draft: &Draft,
        i: u32,
        item: DraftSentence,
    ) -> Result<(), Fault>
        requires item { IsItemAt draft.now i (items.Sentence item) }
        requires before { SentencesMade draft.now i self.old }
        ensures ok { OnOk result (SentencesMade draft.now (i + 1) self.new) }
        ensures err { IfErr result (IsExcess draft.now.items (i + 1)) }
    {
        if self.is_full(item.upper.is_some()) {
            return Err(Fault::TooMany(Excess::Bounds));
        }
        let query = self.building.query(alloc, draft, item.formula, item.given)?;
        self.push(alloc, sentence(query, item))?;
        Ok(())
    }

    // Makes a linear sentence.
    fn linear(
        &mut self,
        alloc: Global,
        draft: &Draft,
        i: u32,
        item: &DraftLinear,
    ) -> Result<(), Fault>
        requires item { IsItemAt draft.now i (items.Linear item.now) }
        requires before { SentencesMade draft.now i self.old }
        ensures ok { OnOk result (SentencesMade draft.now (i + 1) self.new) }
        ensures err { IfErr result (IsExcess draft.now.items (i + 1)) }
    {
        let scale = match small_scale(item) {
            Some(scale) => scale,
            None => return Err(Fault::TooMany(Excess::Numbers)),
        };
        if self.is_full(item.upper.is_some()) {
            return Err(Fault::TooMany(Excess::Bounds));
        }
        let terms = item.terms.as_slice();
        let terms = self.building.terms(alloc, draft, terms, scale)?;
        self.push(alloc, linear(terms, scale, item))?;
        Ok(())
    }

    // Makes the sentence of an item that is one.
    fn sentence(&mut self, alloc: Global, draft: &Draft, i: u32) -> Result<(), Fault>
        requires item { i < length draft.now.items }
        requires before { SentencesMade draft.now i self.old }
        ensures ok { OnOk result (SentencesMade draft.now (i + 1) self.new) }
        ensures err { IfErr result (IsExcess draft.now.items (i + 1)) }
    {
        match draft.item(i) {
            DraftItem::Sentence(item) => self.plain(alloc, draft, i, *item),
            DraftItem::Linear(item) => self.linear(alloc, draft, i, item),
            DraftItem::Query(_) => Ok(()),
        }
    }

    // Makes the query of an item that is one.
    fn query(&mut self, alloc: Global, draft: &Draft, i: u32) -> Result<(), Fault>
        requires item { i < length draft.now.items }
        requires before { QueriesMade draft.now i self.old }
        ensures ok { OnOk result (QueriesMade draft.now (i + 1) self.new) }
        ensures err { IfErr result (IsExcess draft.now.items (i + 1)) }
    {
        let item = match draft.item(i) {
            DraftItem::Query(query) => *query,
            DraftItem::Sentence(_) => return Ok(()),
            DraftItem::Linear(_) => return Ok(()),
        };
        if self.queries.len() >= MOST_QUERIES {
            return Err(Fault::TooMany(Excess::Queries));
        }
        let query = self.building.query(alloc, draft, item.formula, item.given)?;
        self.queries.push(query)?;
        Ok(())
    }

    // Makes the sentences of all items.
    fn sentences(&mut self, alloc: Global, draft: &Draft) -> Result<(), BuildError>
        requires { SentencesMade draft.now 0 self.old }
        ensures ok { OnOk result (SentencesMade draft.now (length draft.now.items) self.new) }
        ensures err { IfErr result (TellsExcess draft.now.items) }
    {
        for i in 0..draft.len() {
            match self.sentence(alloc, draft, i) {
                Ok(()) => {}
                Err(Fault::TooMany(excess)) => return Err(BuildError::too_many(excess, i + 1)),
                Err(Fault::NoMemory) => return Err(BuildError::NoMemory),
            }
        }
        Ok(())
    }

    // Makes the queries of all items.
    fn queries(&mut self, alloc: Global, draft: &Draft) -> Result<(), BuildError>
        requires { QueriesMade draft.now 0 self.old }
        ensures ok { OnOk result (QueriesMade draft.now (length draft.now.items) self.new) }
        ensures err { IfErr result (TellsExcess draft.now.items) }
    {
        for i in 0..draft.len() {
            match self.query(alloc, draft, i) {
                Ok(()) => {}
                Err(Fault::TooMany(excess)) => return Err(BuildError::too_many(excess, i + 1)),
                Err(Fault::NoMemory) => return Err(BuildError::NoMemory),
            }
        }
        Ok(())
    }
}

/// The problem of a draft's items: formulas and atoms are numbered in the order in which they first
/// come, those of all sentences before those of the queries.
pub fn build(alloc: Global, draft: &Draft) -> Result<Problem, BuildError>
    ensures { IsBuilt draft.now.items result }
{
    let names = draft.names();
    let mut assembly = Assembly {
        building: Building::new(alloc),
        sentences: List::new(alloc),
        rows: List::new(alloc),
        queries: List::new(alloc),
    };
    assembly.sentences(alloc, draft)?;
    assembly.queries(alloc, draft)?;
    let texts = copies(alloc, names, assembly.building.atoms.as_slice())?;
    let building = assembly.building;
    Ok(Problem::of(
        texts,
        building.formulas,
        assembly.sentences,
        assembly.rows,
        assembly.queries,
    ))
}
