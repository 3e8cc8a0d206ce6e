//! A log that writes its goals and steps as lines.
ghost use Rattle.std.specs.Prelude.{◌≡◌, [], false, true};
ghost use Rattle.ps_io.specs.Lines.{text_of, is_commented, sink_of};
ghost use Rattle.ps_log.specs.Told.{ends_whole};

use crate::error::LogError;
use crate::sink::ProofSink;
use crate::text::{write_goal, write_step};
use ps_io::{Lines, Sink};
use ps_pb::{Constraint, Step};

/// Writes goals and steps and keeps none. What it tells is what the written bytes tell: the last
/// whole goal line, and the step lines after it.
#[derive(Drop)]
pub struct TextLog<'s, O: Sink> {
    lines: Lines<'s, O>,
    broken: bool,
    begins: u64,
    ghost line_empty: { text_of lines ≡ [] },
    ghost unmarked: { is_commented lines ≡ false },
    ghost whole_lines: { broken ≡ false → ends_whole (O.written (sink_of lines)) ≡ true },
}

impl<'s, O: Sink> TextLog<'s, O> {
    ghost use Rattle.ps_io.specs.Lines.{name_of};
    ghost use Rattle.ps_log.specs.TextLogs.{lines_of, reference_of, is_unbroken};

    /// A log that has written nothing yet. What the sink has already taken must be nothing or whole
    /// lines.
    pub fn new(lines: Lines<'s, O>) -> TextLog<'s, O>
        requires empty { text_of lines ≡ [] }
        requires unmarked { is_commented lines ≡ false }
        requires whole_lines { ends_whole (O.written (sink_of lines)) ≡ true }
        ensures same_reference { reference_of result ≡ name_of lines.entry }
        ensures nothing_written { sink_of (lines_of result) ≡ sink_of lines.entry }
        ensures whole { is_unbroken result ≡ true }
    {
        TextLog {
            lines,
            broken: false,
            begins: 0,
        }
    }
}

impl<O: Sink> ProofSink for TextLog<'_, O> {
    ghost use Rattle.std.specs.Prelude.{◌∷◌, OnOk, OnErr, IsTrue};
    ghost use Rattle.ps_log.specs.Logs.{Starts, Grows, Stays, CountsLogFault, OnNoMemory};
    ghost use Rattle.ps_log.specs.Texts.{goal_line, step_line};
    ghost use Rattle.ps_log.specs.Limits.{IsGoalWithin, IsStepWithin};
    ghost use Rattle.ps_log.specs.TextLogs.{WroteLine, reference_of, begins_of, faults_of};
    ghost use Rattle.ps_log.specs.TextLogs.{is_unbroken, told_by};
    ghost use Rattle.ps_io.specs.Causes.{next_count};

    ghost told = { λ log. told_by log };

    ghost begins = { λ log. begins_of log };

    ghost faults = { λ log. faults_of log };

    ghost is_whole = { λ log. is_unbroken log };

    ghost takes_memory = { λ _. false };

    ghost names = { λ log. reference_of log ∷ [] };

    #[tactic(auto, using(crate::proofs::Lengths::goal_is_short))]
    fn begin(&mut self, constraint: &Constraint) -> Result<(), LogError>
        requires whole { IsTrue (is_unbroken self.old) }
        requires within { IsGoalWithin constraint.now }
        ensures ok { OnOk result (Starts (told_by self.old) (told_by self.new) constraint.now) }
        ensures whole { OnOk result (IsTrue (is_unbroken self.new)) }
        ensures err { OnErr result (Stays (told_by self.old) (told_by self.new)) }
        ensures begun { begins_of self.new ≡ next_count (begins_of self.old) }
        ensures counted { CountsLogFault result (faults_of self.old) (faults_of self.new) }
        ensures no_memory { OnNoMemory result false (is_unbroken self.new) }
        ensures only_fault { OnErr result (result ≡ Err LogError.Fault) }
        ensures broken { OnErr result (is_unbroken self.new ≡ false) }
        ensures same_references { reference_of self.new ≡ reference_of self.old }
        ensures written { WroteLine self.old self.new result (goal_line constraint.now) }
    {
        self.begins = self.begins.saturating_add(1);
        match write_goal(&mut self.lines, constraint) {
            Ok(()) => Ok(()),
            Err(_) => {
                self.broken = true;
                Err(LogError::Fault)
            }
        }
    }

    #[tactic(auto, using(crate::proofs::Lengths::step_is_short))]
    fn step(&mut self, step: &Step) -> Result<(), LogError>
        requires whole { IsTrue (is_unbroken self.old) }
        requires within { IsStepWithin step.now }
        ensures ok { OnOk result (Grows (told_by self.old) (told_by self.new) (step.now ∷ [])) }
        ensures whole { OnOk result (IsTrue (is_unbroken self.new)) }
        ensures err { OnErr result (Stays (told_by self.old) (told_by self.new)) }
        ensures same_begins { begins_of self.new ≡ begins_of self.old }
        ensures counted { CountsLogFault result (faults_of self.old) (faults_of self.new) }
        ensures no_memory { OnNoMemory result false (is_unbroken self.new) }
        ensures only_fault { OnErr result (result ≡ Err LogError.Fault) }
        ensures broken { OnErr result (is_unbroken self.new ≡ false) }
        ensures same_references { reference_of self.new ≡ reference_of self.old }
        ensures written { WroteLine self.old self.new result (step_line step.now) }
    {
        match write_step(&mut self.lines, step) {
            Ok(()) => Ok(()),
            Err(_) => {
                self.broken = true;
                Err(LogError::Fault)
            }
        }
    }

    fn whole(&self) -> bool {
        !self.broken
    }
}
