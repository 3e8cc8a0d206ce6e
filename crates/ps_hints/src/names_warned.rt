//! Warnings about names.
ghost use Rattle.std.specs.Prelude.{IfOk, IsSome};
ghost use Rattle.ps_hints.specs.Names.{IsMistyped};
ghost use Rattle.ps_hints.specs.Warnings.{IsUnstated};

use crate::close_names::close_name;
use crate::kind::WarningKind;
use crate::mentions::is_stated;
use crate::message::Message;
use crate::uses::Uses;
use crate::warning::Warning;
use ps_io::NoMemory;
use ps_problem::Problem;
use std::alloc::Global;

/// The warning about a name that is used once and close to another, which is used more often, or
/// first.
#[tactic(auto, using(crate::proofs::Meant::mistyped))]
pub(crate) fn name_warning(
    alloc: Global,
    bytes: &[u8],
    problem: &Problem,
    atom: u16,
) -> Result<Option<Warning>, NoMemory>
    ensures { IfOk result (λ w. IsSome w → IsMistyped problem.now.names atom) }
{
    let Some(name) = problem.name(atom) else {
        return Ok(None);
    };
    let uses = Uses::of(bytes, name);
    if uses.count != 1 {
        return Ok(None);
    }
    let Some(meant) = close_name(alloc, bytes, problem, atom)? else {
        return Ok(None);
    };
    let mut message = Message::new(alloc);
    message.push_bytes(name)?;
    message.push_text(" is used once; is ")?;
    message.push_bytes(meant)?;
    message.push_text(" meant?")?;
    Ok(Some(Warning {
        kind: WarningKind::Name,
        line: Some(uses.line),
        text: message.into_text(),
    }))
}

/// The warning about an atom that stands in no sentence.
pub(crate) fn unstated_warning(
    alloc: Global,
    bytes: &[u8],
    problem: &Problem,
    atom: u16,
) -> Result<Option<Warning>, NoMemory>
    ensures { IfOk result (λ w. IsSome w
        → IsUnstated problem.now.nodes problem.now.sentences atom) }
{
    let Some(name) = problem.name(atom) else {
        return Ok(None);
    };
    if is_stated(alloc, problem, atom)? {
        return Ok(None);
    }
    let mut message = Message::new(alloc);
    message.push_bytes(name)?;
    message.push_text(" stands in no sentence, so nothing is known of it")?;
    Ok(Some(Warning {
        kind: WarningKind::Unstated,
        line: Some(Uses::of(bytes, name).line),
        text: message.into_text(),
    }))
}
