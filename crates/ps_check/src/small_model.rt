//! A model in hand.
ghost use Rattle.std.specs.Prelude.{◌≡◌, ◌≤◌, [], IfOk, IfSome, IsNone};
ghost use Rattle.std.specs.Prelude.{length, option_copied};
ghost use Rattle.ps_answer.specs.declared.limits.TheConstants.{MOST_ENTRIES};
ghost use Rattle.ps_valid.specs.Limits.{IsAmount, IsSmallModel};
ghost use Rattle.ps_check.specs.Progress.{with_world};

use ps_answer::{MOST_ENTRIES, Model, Weighted};
use ps_formula::World;
use ps_io::{List, NoMemory};
use std::alloc::Global;

/// A model whose numbers are within the limits of a report.
#[derive(Drop)]
pub(crate) struct SmallModel {
    model: Model,
}

impl std::marker::Model for SmallModel {
    ghost use Rattle.std.specs.Prelude.{All};
    ghost use Rattle.ps_answer.specs.declared.answer.Model.{Model as AModel};
    ghost use Rattle.ps_valid.specs.Limits.{IsAmount};

    ghost Value = { AModel };

    ghost view = { λ m. m.model };

    ghost invariant = { λ m. IsAmount m.model.total × All (λ w. IsAmount w.weight) m.model.worlds };
}

impl SmallModel {
    /// A model of this total whose worlds are to come.
    pub(crate) fn of_total(alloc: Global, total: i128) -> SmallModel
        requires { IsAmount total }
        ensures { result ≡ record { total = total; worlds = [] } }
    {
        let worlds = List::new(alloc);
        SmallModel {
            model: Model { total, worlds },
        }
    }

    /// The model with a world more.
    pub(crate) fn with(mut self, weight: i128, world: World) -> Result<SmallModel, NoMemory>
        requires { IsAmount weight }
        ensures { IfOk result
            (λ m. m ≡ with_world (record { weight = weight; world = world }) self) }
    {
        self.model.worlds.push(Weighted { weight, world })?;
        Ok(self)
    }

    /// The model, unless it has more worlds than that of a report.
    pub(crate) fn within(&self) -> Option<&Model>
        ensures value { IfSome (option_copied result) (λ m. m ≡ self.now) }
        ensures small { IfSome (option_copied result) IsSmallModel }
        ensures none { IsNone result → ¬ (length self.now.worlds ≤ MOST_ENTRIES) }
    {
        if self.model.worlds.len() as u64 > MOST_ENTRIES {
            None
        } else {
            Some(&self.model)
        }
    }
}
