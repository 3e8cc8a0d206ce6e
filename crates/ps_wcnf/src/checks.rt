//! What holds of each text: no literal is 0.
ghost use Rattle.std.specs.Prelude.{◌≤◌, All, unsigned_abs};
ghost use Rattle.ps_wcnf.specs.Laws.{IsWeighed};
ghost use Rattle.ps_wcnf.specs.Limits.{IsText, AreLiterals};

use crate::text::WcnfText;
use ps_pb::{Lit, Lits};

fn check_literal(lit: &Lit)
    ensures { 1 ≤ unsigned_abs lit.now }
{
    // Called for its clause: no literal is 0.
    let _variable = lit.variable();
}

fn check_literals(lits: &[Lit])
    ensures { AreLiterals lits.now }
{
    for lit in lits {
        check_literal(lit);
    }
}

fn check_hard(hard: &[Lits])
    ensures { All AreLiterals hard.now }
{
    for lits in hard {
        check_literals(lits.as_slice());
    }
}

fn check_soft(soft: &[(i128, Lits)])
    ensures { All (λ s. AreLiterals s.1) soft.now }
{
    for clause in soft {
        check_literals(clause.1.as_slice());
    }
}

/// Called for its clause: what is said of values holds of a text within the limits.
pub fn check_text(text: &WcnfText)
    requires { IsText text.now }
    ensures { IsWeighed text.now }
{
    check_hard(text.hard.as_slice());
    check_soft(text.soft.as_slice());
}
