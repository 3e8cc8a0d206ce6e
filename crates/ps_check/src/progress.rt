//! The claims of a report, one after another.
ghost use Rattle.std.specs.Prelude.{◌≡◌, All, IfOk, OnOk};
ghost use Rattle.ps_answer.specs.Items.{IsProper, IsWithin};
ghost use Rattle.ps_answer.specs.declared.item.LineItem.TheVariants as line;
ghost use Rattle.ps_claims.specs.Certificates.{model_of, IsMultiplier};
ghost use Rattle.ps_claims.specs.Claims.{Modelled};
ghost use Rattle.ps_valid.specs.Limits.{IsAmount};
ghost use Rattle.ps_check.specs.declared.subject.Subject.TheVariants.{OfQuery};
ghost use Rattle.ps_check.specs.Found.{Finds, IsOther};
ghost use Rattle.ps_check.specs.Progress.{at_first, begun, ending, found_behind};
ghost use Rattle.ps_check.specs.Progress.{model_begun, dual_begun, step_more, with_stage};
ghost use Rattle.ps_check.specs.Progress.{HasConcluded, HasEnded, HasOpen, HasTakenLine};
ghost use Rattle.ps_check.specs.Progress.{HasTakenRows, HasTakenSide, HasTakenWorld};

use crate::small_model::SmallModel;
use crate::stage::Stage;
use crate::subject::Subject;
use ps_answer::{LineItem, Multipliers, Ratio};
use ps_claims::{Claim, Reason};
use ps_formula::World;
use ps_io::NoMemory;
use ps_pb::Step;
use ps_pbcheck::Checker;
use ps_problem::Problem;
use ps_reader::fraction_of;
use ps_valid::{Accepted, Refusal, check_model};
use std::alloc::Global;

/// Judges the claims of a report on a problem, line by line, and keeps the first refusal.
#[derive(Drop)]
pub(crate) struct Progress {
    // How many queries are to have a part.
    asked: u32,
    // How many have one so far.
    parts: u32,
    // How much is claimed and open so far.
    accepted: Accepted,
    first: Option<Refusal>,
    stage: Stage,
}

// What is found against a model by itself.
fn against_model(
    alloc: Global,
    problem: &Problem,
    model: &SmallModel,
) -> Result<Option<Reason>, NoMemory>
    ensures { IfOk result (Finds problem.now (Some (Modelled (model_of model.now)))) }
{
    match model.within() {
        Some(model) => check_model(alloc, problem, model),
        None => Ok(Some(Reason::TooManyWorlds)),
    }
}

// What is found against the steps that were taken.
fn found_behind(checker: &Checker) -> Option<Reason>
    ensures { result ≡ found_behind checker.now.refuted }
{
    if checker.refuted() {
        None
    } else {
        Some(Reason::NotRefuted)
    }
}

impl Progress {
    /// Before the first line.
    pub(crate) fn new() -> Progress
        ensures { result ≡ at_first }
    {
        Progress {
            asked: 0,
            parts: 0,
            accepted: Accepted {
                claims: 0,
                unfinished: 0,
            },
            first: None,
            stage: Stage::Idle,
        }
    }

    // A claim begins. It isn't looked at where one before it is refused, or where no such query is
    // asked: then the answer is refused for that.
    fn begin(&mut self, subject: Subject)
        ensures { self.new ≡ begun subject self.old.first self.old }
    {
        if self.first.is_none() && self.parts <= self.asked {
            self.stage = Stage::Begun { subject };
        }
    }

    // A claim ends, against which this is found.
    fn end(&mut self, claim: Claim, found: Option<Reason>)
        ensures { HasEnded claim found self.old self.new }
    {
        match found {
            None => self.accepted.claims = self.accepted.claims.saturating_add(1),
            Some(reason) => self.first = Some(Refusal { claim, reason }),
        }
        self.stage = Stage::Idle;
    }

    // A trace begins: the certificate before it, if there is one, has ended.
    fn conclude(&mut self, alloc: Global, problem: &Problem) -> Result<(), NoMemory>
        ensures { OnOk result (HasConcluded problem.now self.old.stage self.old self.new) }
    {
        match &self.stage {
            Stage::Modelling { subject, model } => {
                let claim = subject.claim();
                let found = against_model(alloc, problem, model)?;
                self.end(claim, found);
            }
            Stage::Refuting { subject, checker } => {
                let claim = subject.claim();
                let found = found_behind(checker);
                self.end(claim, found);
            }
            Stage::Failed { claim, reason } => {
                let claim = *claim;
                let found = Some(*reason);
                self.end(claim, found);
            }
            _ => self.stage = Stage::Idle,
        }
        Ok(())
    }

    fn open(&mut self)
        ensures { HasOpen self.old self.new }
    {
        self.accepted.unfinished = self.accepted.unfinished.saturating_add(1);
    }

    fn model_head(&mut self, alloc: Global, total: i128)
        requires { IsAmount total }
        ensures { self.new ≡ with_stage (model_begun total self.old.stage) self.old }
    {
        let stage = std::mem::replace(&mut self.stage, Stage::Idle);
        self.stage = stage.model_head(alloc, total);
    }

    fn entry(&mut self, weight: i128, world: World) -> Result<(), NoMemory>
        requires { IsAmount weight }
        ensures { OnOk result
            (HasTakenWorld weight world self.old self.new) }
    {
        let stage = std::mem::replace(&mut self.stage, Stage::Idle);
        self.stage = stage.entry(weight, world)?;
        Ok(())
    }

    fn dual_head(&mut self, top: i128, head: i128)
        requires top { IsMultiplier top }
        requires head { IsMultiplier head }
        ensures { self.new ≡ with_stage (dual_begun top head self.old.stage) self.old }
    {
        let stage = std::mem::replace(&mut self.stage, Stage::Idle);
        self.stage = stage.dual_head(top, head);
    }

    fn rows(&mut self, alloc: Global, problem: &Problem, rows: Multipliers) -> Result<(), NoMemory>
        requires { All IsMultiplier rows }
        ensures { OnOk result (HasTakenRows problem.now rows self.old self.new) }
    {
        let stage = std::mem::replace(&mut self.stage, Stage::Idle);
        self.stage = stage.rows(alloc, problem, rows)?;
        Ok(())
    }

    fn step(&mut self, step: &Step) -> Result<(), NoMemory>
        ensures { OnOk result
            (self.new ≡ with_stage (step_more step.now self.old.stage) self.old) }
    {
        let stage = std::mem::replace(&mut self.stage, Stage::Idle);
        self.stage = stage.step(step)?;
        Ok(())
    }

    fn consistent(&mut self, problem: &Problem)
        ensures { HasTakenLine problem.now line.Consistent self.old self.new }
    {
        self.asked = problem.queries().len() as u32;
        self.begin(Subject::OfVerdict);
    }

    fn impossible(&mut self)
        ensures { self.new ≡ begun (OfQuery self.old.parts) self.old.first self.old }
    {
        let number = self.parts;
        self.begin(Subject::OfQuery { number });
    }

    fn side(&mut self, upper: bool, value: &Ratio)
        requires proper { IsProper (line.Bound upper value.now) }
        requires within { IsWithin (line.Bound upper value.now) }
        ensures { HasTakenSide upper value.now self.old self.new }
    {
        let number = self.parts;
        let value = fraction_of(&value.over, &value.under);
        self.begin(Subject::OfSide {
            number,
            upper,
            value,
        });
    }

    /// Takes what a line says.
    pub(crate) fn take(
        &mut self,
        alloc: Global,
        problem: &Problem,
        item: LineItem,
    ) -> Result<(), NoMemory>
        requires proper { IsProper item }
        requires within { IsWithin item }
        ensures { OnOk result (HasTakenLine problem.now item self.old self.new) }
    {
        match item {
            LineItem::Entry { weight, world } => self.entry(weight, world),
            LineItem::Rows { rows } => self.rows(alloc, problem, rows),
            other => self.take_other(alloc, problem, &other),
        }
    }

    // Takes what a line says that is no world and no row of multipliers.
    fn take_other(
        &mut self,
        alloc: Global,
        problem: &Problem,
        item: &LineItem,
    ) -> Result<(), NoMemory>
        requires other { IsOther item.now }
        requires proper { IsProper item.now }
        requires within { IsWithin item.now }
        ensures { OnOk result (HasTakenLine problem.now item.now self.old self.new) }
    {
        match item {
            LineItem::Consistent => self.consistent(problem),
            LineItem::Inconsistent => self.begin(Subject::OfVerdict),
            LineItem::OpenPivots { .. } => self.open(),
            LineItem::OpenConflicts { .. } => self.open(),
            LineItem::OpenWide { .. } => self.open(),
            LineItem::ModelHead { total, .. } => self.model_head(alloc, *total),
            LineItem::DualHead { top, head, .. } => self.dual_head(*top, *head),
            LineItem::StepLine { step } => self.step(step)?,
            LineItem::TraceHead { .. } => self.conclude(alloc, problem)?,
            LineItem::Query { number } => self.parts = *number as u32,
            LineItem::Impossible => self.impossible(),
            LineItem::Bound { upper, value } => self.side(*upper, value),
            _ => {}
        }
        Ok(())
    }

    /// Behind the last line: how much is claimed, or the first claim that isn't valid.
    pub(crate) fn finish(&self) -> Result<Accepted, Refusal>
        ensures { result ≡ ending self.now }
    {
        if self.parts != self.asked {
            return Err(Refusal {
                claim: Claim::Report,
                reason: Reason::WrongShape,
            });
        }
        match self.first {
            Some(refusal) => Err(refusal),
            None => Ok(self.accepted),
        }
    }
}
