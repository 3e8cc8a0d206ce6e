//! Guesses of distributions.
ghost use Rattle.std.specs.Prelude.{IfOk};
ghost use Rattle.ps_runs.specs.Kept.{IsChoice, kept_parts};
ghost use Rattle.ps_guess.specs.Trials.{IsFoundModel, IsTrialOf};

use crate::limits::is_small_model;
use crate::trial::Trial;
use crate::trials::Trials;
use ps_answer::Model;
use ps_claims::Reason;
use ps_io::NoMemory;
use ps_runs::kept_rows;
use ps_valid::{check_model, check_model_over};
use std::alloc::Global;

impl<'p> Trials<'p> {
    /// Whether the guess is a distribution that meets each bound of the problem.
    pub fn model(&self, alloc: Global, model: Model) -> Result<Trial<Model>, NoMemory>
        ensures { IfOk result (IsTrialOf (IsFoundModel self.now)) }
    {
        if !is_small_model(&model) {
            return Ok(Trial::Wrong(Reason::TotalWrong));
        }
        match check_model(alloc, self.problem(), &model)? {
            Some(reason) => Ok(Trial::Wrong(reason)),
            None => Ok(Trial::Shown(model)),
        }
    }

    /// Whether the guess is a distribution that meets each bound of the kept sentences, by a truth
    /// value for each sentence, of at most one world more than these have bounds.
    #[tactic(auto, using(crate::proofs::KeptModels::kept_sound, crate::proofs::KeptModels::kept_few))]
    pub fn model_of(
        &self,
        alloc: Global,
        kept: &[bool],
        model: Model,
    ) -> Result<Trial<Model>, NoMemory>
        requires kept { IsChoice kept.now self.now }
        ensures { IfOk result (IsTrialOf (IsFoundModel (kept_parts kept.now self.now))) }
    {
        if !is_small_model(&model) {
            return Ok(Trial::Wrong(Reason::TotalWrong));
        }
        let problem = self.problem();
        let rows = kept_rows(alloc, problem, kept)?;
        match check_model_over(alloc, problem, rows.as_slice(), &model)? {
            Some(reason) => Ok(Trial::Wrong(reason)),
            None => Ok(Trial::Shown(model)),
        }
    }
}
