//! The parts of a report that are due.
ghost use Rattle.std.specs.Prelude.{◌≡◌, ◌≤◌, ◌+◌, ◌∷◌, true, false, IfOk, OnOk};
ghost use Rattle.ps_answer.specs.Items.{IsWithin};
ghost use Rattle.ps_answer.specs.ExpectedParts.{at_start, many};
ghost use Rattle.ps_answer.specs.declared.limits.TheConstants.{MOST_QUERIES};
ghost use Rattle.ps_answer.specs.declared.part.Part.TheVariants.{AModel, ADual, SomeRows, AStep};
ghost use Rattle.ps_answer.specs.declared.part.Part.TheVariants.{AGoal, ACause, ATrace, AnAnswer};
ghost use Rattle.ps_answer.specs.declared.part.Part.TheVariants.{ASide, AQuery};
ghost use Rattle.ps_check.specs.Runs.{first_due, traced, IsTaken, IsBehind};

use ps_answer::{LineItem, Part};
use ps_io::{List, NoMemory};
use std::alloc::Global;
use std::marker::Model;

// A part that is due so many times, at least once.
#[derive(Clone, Copy, Drop)]
struct Run {
    part: Part,
    count: u64,
}

/// The parts of a report that are due. It takes no more memory for many of one part.
#[derive(Drop)]
pub(crate) struct Due {
    // The next one last.
    runs: List<Run>,
}

impl Model for Due {
    ghost use Rattle.std.specs.Prelude.{List as Parts, All, ◌≤◌};
    ghost use Rattle.ps_answer.specs.declared.part.Part.{Part as APart};
    ghost use Rattle.ps_check.specs.Runs.{parts_of};

    ghost Value = { Parts APart };

    ghost view = { λ d. parts_of d.runs };

    ghost invariant = { λ d. All (λ r. 1 ≤ r.count) d.runs };
}

impl Due {
    /// What is due at the start of a report.
    pub(crate) fn at_start(alloc: Global) -> Result<Due, NoMemory>
        ensures { IfOk result (λ d. d ≡ at_start) }
    {
        let mut due = Due {
            runs: List::new(alloc),
        };
        due.add(Part::AQuery { number: 1 }, 1)?;
        due.add(Part::ATrace, 1)?;
        due.add(Part::AVerdict, 1)?;
        due.add(Part::AReport, 1)?;
        Ok(due)
    }

    // So many of a part are due before all others.
    fn add(&mut self, part: Part, count: u64) -> Result<(), NoMemory>
        ensures { OnOk result (self.new ≡ many count part self.old) }
    {
        if count == 0 {
            return Ok(());
        }
        self.runs.push(Run { part, count })
    }

    /// The part that is due next, if one is.
    pub(crate) fn next(&self) -> Option<Part>
        ensures { result ≡ first_due self.now }
    {
        match self.runs.as_slice() {
            [.., run] => Some(run.part),
            [] => None,
        }
    }

    // Takes the part that is due next.
    fn take(&mut self) -> Result<Option<Part>, NoMemory>
        ensures { IfOk result (IsTaken self.old self.new) }
    {
        let Some(Run { part, count }) = self.runs.pop() else {
            return Ok(None);
        };
        self.add(part, count - 1)?;
        Ok(Some(part))
    }

    /// What is due behind a line of the part that is due next.
    pub(crate) fn pass(&mut self, item: &LineItem) -> Result<(), NoMemory>
        requires { IsWithin item.now }
        ensures { OnOk result (IsBehind item.now self.old self.new) }
    {
        let Some(part) = self.take()? else {
            return Ok(());
        };
        match item {
            LineItem::Consistent => self.add(Part::AModel, 1),
            LineItem::Inconsistent => self.add(Part::ADual, 1),
            LineItem::ModelHead { count, .. } => self.add(Part::AnEntry, *count),
            LineItem::DualHead { count, .. } => self.pass_dual(*count),
            LineItem::TraceHead { count } => self.add(Part::AnEvent, *count),
            LineItem::Query { number } => self.pass_query(*number),
            LineItem::Bounds => self.pass_bounds(),
            LineItem::Impossible => self.pass_impossible(),
            LineItem::Bound { .. } => self.pass_bound(),
            LineItem::OpenSide { .. } => self.pass_open_side(),
            LineItem::OpenPivots { .. } => self.pass_cause(part),
            LineItem::OpenConflicts { limit } => self.pass_conflicts(part, *limit),
            LineItem::OpenWide { .. } => self.pass_cause(part),
            _ => Ok(()),
        }
    }

    fn pass_dual(&mut self, count: u64) -> Result<(), NoMemory>
        ensures { OnOk result (self.new ≡ SomeRows ∷ many count AStep self.old) }
    {
        self.add(Part::AStep, count)?;
        self.add(Part::SomeRows, 1)
    }

    fn pass_query(&mut self, number: u64) -> Result<(), NoMemory>
        requires { number ≤ MOST_QUERIES }
        ensures { OnOk result (self.new ≡ AnAnswer ∷ AQuery (number + 1) ∷ self.old) }
    {
        self.add(Part::AQuery { number: number + 1 }, 1)?;
        self.add(Part::AnAnswer, 1)
    }

    fn pass_bounds(&mut self) -> Result<(), NoMemory>
        ensures { OnOk result (self.new ≡ ATrace ∷ ASide false ∷ ASide true ∷ self.old) }
    {
        self.add(Part::ASide { upper: true }, 1)?;
        self.add(Part::ASide { upper: false }, 1)?;
        self.add(Part::ATrace, 1)
    }

    fn pass_impossible(&mut self) -> Result<(), NoMemory>
        ensures { OnOk result (self.new ≡ ADual ∷ ATrace ∷ self.old) }
    {
        self.add(Part::ATrace, 1)?;
        self.add(Part::ADual, 1)
    }

    fn pass_bound(&mut self) -> Result<(), NoMemory>
        ensures { OnOk result (self.new ≡ AModel ∷ ADual ∷ ATrace ∷ self.old) }
    {
        self.add(Part::ATrace, 1)?;
        self.add(Part::ADual, 1)?;
        self.add(Part::AModel, 1)
    }

    fn pass_open_side(&mut self) -> Result<(), NoMemory>
        ensures { OnOk result (self.new ≡ ACause ∷ ATrace ∷ self.old) }
    {
        self.add(Part::ATrace, 1)?;
        self.add(Part::ACause, 1)
    }

    // Behind a cause that answers a query a trace is due.
    fn pass_cause(&mut self, part: Part) -> Result<(), NoMemory>
        ensures { OnOk result (self.new ≡ traced part self.old) }
    {
        if part == Part::AnAnswer {
            self.add(Part::ATrace, 1)
        } else {
            Ok(())
        }
    }

    fn pass_conflicts(&mut self, part: Part, limit: u64) -> Result<(), NoMemory>
        ensures { OnOk result (self.new ≡ AGoal ∷ many limit AStep (traced part self.old)) }
    {
        self.pass_cause(part)?;
        self.add(Part::AStep, limit)?;
        self.add(Part::AGoal, 1)
    }
}
