//! Clauses and weighted literals that say what hard and soft clauses say.
ghost use Rattle.std.specs.Prelude.{IfOk};
ghost use Rattle.ps_wcnf.specs.Limits.{IsText};
ghost use Rattle.ps_wcnf.specs.Handed.{IsFormOf, IsSmallForm};

use crate::base::always;
use crate::form::form_of;
use crate::text::WcnfText;
use ps_clause::ClauseForm;
use ps_io::NoMemory;
use ps_pb::WeightedLits;
use std::alloc::Global;

/// Clauses and weighted literals that say what hard and soft clauses say.
#[derive(Drop)]
pub struct ValuedForm {
    /// The hard clauses, and those of the soft clauses' own variables.
    pub clauses: ClauseForm,
    /// The literals that stand for soft clauses, with their weights.
    pub literals: WeightedLits,
    /// The value of an assignment in which none of the literals is true.
    pub base: i128,
}

/// The form of a text.
pub fn valued_form(alloc: Global, text: &WcnfText) -> Result<ValuedForm, NoMemory>
    requires { IsText text.now }
    ensures form { IfOk result (IsFormOf text.now) }
    ensures small { IfOk result IsSmallForm }
{
    let always = always(alloc, text.soft.as_slice())?;
    let (clauses, literals) = form_of(alloc, text)?;
    Ok(ValuedForm {
        clauses,
        literals,
        base: 1 + always,
    })
}
