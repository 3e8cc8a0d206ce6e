//! The optimum of weighted clauses.
ghost use Rattle.std.specs.Prelude.{◌≡◌, ◌≤◌, IfOk, None, pos};
ghost use Rattle.ps_log.specs.declared.limits.TheConstants.{MOST_CONFLICTS};
ghost use Rattle.ps_max_answer.specs.Answers.{fault_of};
ghost use Rattle.ps_max_answer.specs.Optima.{IsFoundAnswer};
ghost use Rattle.ps_maxsat.specs.Limits.{IsNarrow, IsSoftWithin};
ghost use Rattle.ps_optimum.specs.Printed.{IsPrintedAnswer};
ghost use Rattle.ps_optimum.specs.Searches.{Reaches, wcnf_of};
ghost use Rattle.ps_wcnf.specs.Laws.{IsWeighed};
ghost use Rattle.ps_wcnf.specs.Limits.{IsText};

use crate::hand::hand_of;
use crate::seeking::{Sought, seek, seek_best};
use crate::setting::wcnf_of;
use ps_io::NoMemory;
use ps_max_answer::MaxAnswer;
use ps_maxsat::Wcnf;
use ps_pb::Assignment;
use ps_wcnf::{WcnfText, check_text};
use std::alloc::Global;

// Goes on from an assignment to better ones, until a search for one is refuted or spent.
fn improve(
    alloc: Global,
    text: &WcnfText,
    wcnf: &Wcnf,
    found: &Assignment,
    conflicts: u64,
) -> Result<MaxAnswer, NoMemory>
    requires text { IsText text.now }
    requires weighed { IsWeighed text.now }
    requires wcnf { wcnf.now ≡ wcnf_of text.now }
    requires soft { IsSoftWithin wcnf.now }
    requires sizes { IsNarrow wcnf.now }
    requires found { Reaches wcnf.now (pos 1) found.now }
    requires few { conflicts ≤ MOST_CONFLICTS }
    ensures found { IfOk result (IsFoundAnswer text.now conflicts) }
    ensures printed { IfOk result (IsPrintedAnswer conflicts) }
{
    let mut hand = hand_of(alloc, text, found)?;
    loop {
        match seek(alloc, wcnf, 2 + hand.gain, conflicts)? {
            Sought::Found(better) => hand = hand_of(alloc, text, &better)?,
            Sought::Refuted(steps) => return Ok(hand.into_optimum(steps)),
            Sought::Spent(goal, steps) => return Ok(hand.into_open(conflicts, goal, steps)),
        }
    }
}

/// The optimum: an allowed assignment of least cost, with the refutation that a value is greater
/// than its own; or the refutation that a value is at least 1, where no assignment is allowed. It
/// is open only where a search was spent that had learned so many clauses: for a value of at least
/// 1, or for one greater than that of the best assignment so far. No reason is against an answer,
/// and its goal and steps can be written.
///
/// The greatest value is looked for by halving the way to what none is above, and then one greater
/// than what is in hand until that is refuted (linear search from below; N. Een, N. Sorensson,
/// 2006).
pub fn optimum(alloc: Global, text: &WcnfText, conflicts: u64) -> Result<MaxAnswer, NoMemory>
    requires text { IsText text.now }
    requires few { conflicts ≤ MOST_CONFLICTS }
    ensures found { IfOk result (IsFoundAnswer text.now conflicts) }
    ensures accepted { IfOk result (λ a. fault_of text.now a ≡ None) }
    ensures printed { IfOk result (IsPrintedAnswer conflicts) }
{
    check_text(text);
    let wcnf = wcnf_of(alloc, text)?;
    match seek_best(alloc, &wcnf, conflicts)? {
        Sought::Found(found) => improve(alloc, text, &wcnf, &found, conflicts),
        Sought::Refuted(steps) => Ok(MaxAnswer::Unsatisfiable { steps }),
        Sought::Spent(goal, steps) => Ok(MaxAnswer::Open {
            limit: conflicts,
            goal,
            steps,
            best: None,
        }),
    }
}
