//! Kinds of warnings, and which are left out.
ghost use Rattle.std.specs.Prelude.{◌≡◌, IfOk, IfSome, None};
ghost use Rattle.psat_ask.specs.Kinds.{FindsKind, LeadsOn, LeavesOne, LeavesWanted, no_kinds, without};

use crate::meant::unknown_kind;
use crate::refused::Refused;
use crate::texts::WRONG_KINDS;
use ps_ask::{Wanted, WarningKind};
use std::alloc::Global;

/// So many kinds there are.
const ALL_KINDS: u32 = 6;

/// The kind of warnings that a word names.
pub fn kind_named(word: &str) -> Option<WarningKind>
    ensures { FindsKind word.now result }
{
    match word {
        "or" => Some(WarningKind::Or),
        "interval" => Some(WarningKind::Interval),
        "twice" => Some(WarningKind::Twice),
        "name" => Some(WarningKind::Name),
        "unstated" => Some(WarningKind::Unstated),
        "condition" => Some(WarningKind::Condition),
        _ => None,
    }
}

/// No warnings.
pub fn no_kinds() -> Wanted
    ensures { result ≡ no_kinds }
{
    Wanted {
        or: false,
        interval: false,
        twice: false,
        name: false,
        unstated: false,
        condition: false,
    }
}

/// These warnings but those of one kind.
pub fn without(wanted: Wanted, kind: WarningKind) -> Wanted
    ensures { result ≡ without kind wanted }
{
    match kind {
        WarningKind::Or => Wanted {
            or: false,
            ..wanted
        },
        WarningKind::Interval => Wanted {
            interval: false,
            ..wanted
        },
        WarningKind::Twice => Wanted {
            twice: false,
            ..wanted
        },
        WarningKind::Name => Wanted {
            name: false,
            ..wanted
        },
        WarningKind::Unstated => Wanted {
            unstated: false,
            ..wanted
        },
        WarningKind::Condition => Wanted {
            condition: false,
            ..wanted
        },
    }
}

// The warnings that are left without those of the kind that a word names.
fn without_one(alloc: Global, old: Wanted, word: &str) -> Result<Wanted, Refused>
    ensures { IfOk result (LeavesOne word.now old) }
{
    match kind_named(word) {
        Some(kind) => Ok(without(old, kind)),
        None => Err(unknown_kind(alloc, word)),
    }
}

// The warnings that are left without those of the first kind of a text, and what stands behind its
// comma.
#[tactic(auto, using(crate::proofs::KindLaws::leaves_last, crate::proofs::KindLaws::leads_on))]
fn without_first<'a>(
    alloc: Global,
    old: Wanted,
    kinds: &'a str,
) -> Result<(Wanted, Option<&'a str>), Refused>
    ensures last { IfOk result (λ r. r.1 ≡ None → LeavesWanted kinds.now old r.0) }
    ensures more { IfOk result
        (λ r. IfSome r.1 (λ rest. LeadsOn kinds.now rest.now old r.0)) }
{
    match kinds.split_once(',') {
        Some((first, rest)) => Ok((without_one(alloc, old, first)?, Some(rest))),
        None => Ok((without_one(alloc, old, kinds)?, None)),
    }
}

/// The warnings that are left without those of the kinds that a text names, with commas between
/// them. It names no more than there are.
#[tactic(auto, using(crate::proofs::KindLaws::leads_none, crate::proofs::KindLaws::leads_then))]
pub fn without_kinds(alloc: Global, old: Wanted, kinds: &str) -> Result<Wanted, Refused>
    ensures { IfOk result (LeavesWanted kinds.now old) }
{
    let mut left = old;
    let mut rest = kinds;
    for _turn in 0..ALL_KINDS {
        let (wanted, behind) = without_first(alloc, left, rest)?;
        left = wanted;
        match behind {
            Some(behind) => rest = behind,
            None => return Ok(left),
        }
    }
    Err(Refused::Wrong(WRONG_KINDS))
}
