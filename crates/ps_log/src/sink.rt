//! Where goals and steps are handed over.
ghost use Rattle.std.specs.Prelude.{◌≡◌, ◌∷◌, [], ℕ, List, Bool, IsTrue, OnOk, OnErr};
ghost use Rattle.std.specs.Borrow.{GName};
ghost use Rattle.ps_io.specs.Causes.{next_count};
ghost use Rattle.ps_log.specs.Logs.{Telling, Starts, Grows, Stays, CountsLogFault, OnNoMemory};
ghost use Rattle.ps_log.specs.Limits.{IsGoalWithin, IsStepWithin};

use crate::error::LogError;
use ps_pb::{Constraint, Step};

/// A log of refutations: a goal, and the steps that refute it.
pub trait ProofSink {
    /// What it tells: the goal of the last begin, and the steps since.
    ghost told: { Self → Telling };

    /// How often it was begun, also where it refused to.
    ghost begins: { Self → ℕ };

    /// How often a write has failed. It never falls.
    ghost faults: { Self → ℕ };

    /// Whether more can be handed over.
    ghost is_whole: { Self → Bool };

    /// Whether it takes memory.
    ghost takes_memory: { Self → Bool };

    /// The references that it holds.
    ghost names: { Self → List GName };

    /// Sets the goal; no steps are left. After a refusal goal and steps are as before.
    fn begin(&mut self, constraint: &Constraint) -> Result<(), LogError>
        requires whole { IsTrue (is_whole self.old) }
        requires within { IsGoalWithin constraint.now }
        ensures ok { OnOk result (Starts (told self.old) (told self.new) constraint.now) }
        ensures whole { OnOk result (IsTrue (is_whole self.new)) }
        ensures err { OnErr result (Stays (told self.old) (told self.new)) }
        ensures begun { begins self.new ≡ next_count (begins self.old) }
        ensures counted { CountsLogFault result (faults self.old) (faults self.new) }
        ensures no_memory { OnNoMemory result (takes_memory self.old) (is_whole self.new) }
        ensures same_kind { takes_memory self.new ≡ takes_memory self.old }
        ensures same_references { names self.new ≡ names self.old };

    /// Adds a step after the others. After a refusal goal and steps are as before.
    fn step(&mut self, step: &Step) -> Result<(), LogError>
        requires whole { IsTrue (is_whole self.old) }
        requires within { IsStepWithin step.now }
        ensures ok { OnOk result (Grows (told self.old) (told self.new) (step.now ∷ [])) }
        ensures whole { OnOk result (IsTrue (is_whole self.new)) }
        ensures err { OnErr result (Stays (told self.old) (told self.new)) }
        ensures same_begins { begins self.new ≡ begins self.old }
        ensures counted { CountsLogFault result (faults self.old) (faults self.new) }
        ensures no_memory { OnNoMemory result (takes_memory self.old) (is_whole self.new) }
        ensures same_kind { takes_memory self.new ≡ takes_memory self.old }
        ensures same_references { names self.new ≡ names self.old };

    /// Whether more can be handed over: always, unless a write failed.
    fn whole(&self) -> bool
        ensures { result ≡ is_whole self.now };
}
