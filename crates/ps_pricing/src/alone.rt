//! A world that meets all rows alone.
ghost use Rattle.std.specs.Prelude.{◌≡◌, ◌≤◌, ◌<◌, All, IfOk, IfSome, IsSomeAnd, slice_get};
ghost use Rattle.ps_pb.specs.declared.limits.TheConstants.{MOST_VARIABLES};
ghost use Rattle.ps_pb.specs.Weights.{IsWithin};
ghost use Rattle.ps_log.specs.declared.limits.TheConstants.{MOST_CONFLICTS};

use ps_clause::ClauseForm;
use ps_io::NoMemory;
use ps_log::HeldLog;
use ps_pb::{Assignment, Constraint, Lit, from_weights};
use ps_problem::{Row, Side};
use ps_sat::{Outcome, SearchError, search};
use std::alloc::Global;

// The search for such a world learns at most so many clauses, and no more than any search may.
const FEW_CONFLICTS: u64 = 100;

/// What a row has beside its first term, where it is of the form of a plain bound's: one number more,
/// that of the condition or one that always counts. `None` in another row.
fn rest_of(row: &Row) -> Option<i64> {
    let terms = row.terms.as_slice();
    match terms.len() {
        1 => Some(row.base),
        2 if row.base == 0 => Some(terms[1].1),
        _ => None,
    }
}

/// Whether the first term is to count, so that a world alone meets such a row. `None` where it
/// can't.
fn is_to_count(side: Side, first: i64, rest: i64) -> Option<bool> {
    if first < 0 || 0 < rest {
        return None;
    }
    let both = first.checked_add(rest)?;
    match side {
        Side::AtLeast if 0 <= both => Some(true),
        Side::AtMost => Some(false),
        Side::Exactly if both == 0 => Some(true),
        Side::Exactly if rest == 0 => Some(false),
        _ => None,
    }
}

/// The node of a row's first term, and whether it is to be true, so that a world alone meets the
/// row. `None` where it can't, and in a row that isn't of the form of a plain bound's.
fn wish_of(row: &Row) -> Option<(u32, bool)>
    ensures { IfSome result (λ w. IsSomeAnd (slice_get row.now.terms 0) (λ t. t.0 ≡ w.0)) }
{
    let first = row.terms.as_slice().first()?;
    let wish = is_to_count(row.side, first.1, rest_of(row)?)?;
    Some((first.0, wish))
}

/// The goal that all rows have their wish. `None` where one has none.
fn wishes_of(alloc: Global, rows: &[Row], variables: u32) -> Result<Option<Constraint>, NoMemory>
    requires few { variables ≤ MOST_VARIABLES }
    requires inside { All (λ r. All (λ t. t.0 < variables) r.terms) rows.now }
    ensures { IfOk result (λ goal. IfSome goal (IsWithin variables)) }
{
    let mut wishes = Vec::with_capacity(alloc, rows.len())?;
    for row in rows {
        let Some((node, wish)) = wish_of(row) else {
            return Ok(None);
        };
        wishes.push((Lit::of_place(node as usize, wish), 1))?;
    }
    Ok(Some(from_weights(alloc, &wishes, rows.len() as i128)?))
}

/// A world that meets all rows alone, with the values of all nodes. No variable has a value where
/// none is found.
pub(crate) fn first_world(
    alloc: Global,
    form: &ClauseForm,
    rows: &[Row],
    conflicts: u64,
) -> Result<Assignment, NoMemory>
    requires few { conflicts ≤ MOST_CONFLICTS }
    requires inside { All (λ r. All (λ t. t.0 < form.now.variables) r.terms) rows.now }
{
    let Some(goal) = wishes_of(alloc, rows, form.variables())? else {
        return Assignment::new(alloc, 0);
    };
    let few = conflicts.min(FEW_CONFLICTS);
    let mut log = HeldLog::new(alloc);
    match search(alloc, form, &goal, few, &mut log) {
        Ok(Outcome::Found(world)) => Ok(world),
        Ok(_) => Assignment::new(alloc, 0),
        Err(SearchError::NoMemory) => Err(NoMemory),
        Err(SearchError::LogFault) => unreachable!(),
    }
}
