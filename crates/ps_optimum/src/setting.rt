//! Weighted clauses as a search for the greatest value takes them.
ghost use Rattle.std.specs.Prelude.{◌≡◌, IfOk};
ghost use Rattle.ps_maxsat.specs.Limits.{IsNarrow, IsSoftWithin};
ghost use Rattle.ps_optimum.specs.Searches.{wcnf_of};
ghost use Rattle.ps_wcnf.specs.Limits.{IsText};

use ps_io::NoMemory;
use ps_maxsat::Wcnf;
use ps_wcnf::{WcnfText, valued_form};
use std::alloc::Global;

/// A text as a search takes it.
pub(crate) fn wcnf_of(alloc: Global, text: &WcnfText) -> Result<Wcnf, NoMemory>
    requires { IsText text.now }
    ensures value { IfOk result (λ p. p ≡ wcnf_of text.now) }
    ensures narrow { IfOk result IsNarrow }
    ensures within { IfOk result IsSoftWithin }
{
    let form = valued_form(alloc, text)?;
    Ok(Wcnf {
        hard: form.clauses,
        soft: form.literals,
        base: form.base,
    })
}
