//! Refusals at each kind of place. The operands were computed by Python's `fractions`, by which a
//! single operation is wide in each case.

use crate::tables::{adds, can_pivot, is_fraction, is_inside, pivots};
use ps_frac::{Fraction, Op};
use ps_table::{Col, Home, Place, Table, TableCol, TableError, WideAt};
use std::alloc::Global;
use std::test::Fail;

/// A large entry.
pub(crate) const LARGE: i64 = 1 << 21;

/// `LARGE` to the sixth power.
pub(crate) const HUGE: i128 = 1 << 126;

/// A change of a table.
#[derive(Clone, Copy)]
enum Change {
    /// A world with these entries.
    World([i64; 9]),
    Pivot(u32, Col),
}

/// A table of 9 rows, of which rows 1 to 6 have basic worlds, each with entry `own` in its row and
/// `next` in the row below; changes that are done; and the pivot of a world that is refused.
struct Case {
    own: i64,
    next: i64,
    done: [Option<Change>; 3],
    row: u32,
    world: u32,
    place: Place,
    op: Op,
    left: (i128, i128),
    right: (i128, i128),
}

const CASES: [Case; 5] = [
    Case {
        own: 1,
        next: LARGE,
        done: [Some(Change::World([0, 2, 0, 0, 0, 0, 0, 0, 0])), None, None],
        row: 1,
        world: 7,
        place: Place::ColumnTimes {
            world: 7,
            row: 7,
            home: 1,
        },
        op: Op::Mul,
        left: (HUGE, 1),
        right: (2, 1),
    },
    Case {
        own: 1,
        next: LARGE,
        done: [
            Some(Change::World([0, 1, -LARGE, 0, 0, 0, 0, 0, 0])),
            None,
            None,
        ],
        row: 1,
        world: 7,
        place: Place::ColumnPlus {
            world: 7,
            row: 7,
            home: 2,
        },
        op: Op::Add,
        left: (HUGE, 1),
        right: (HUGE, 1),
    },
    Case {
        own: LARGE,
        next: 1,
        done: [
            Some(Change::World([0, 0, 0, 0, 0, 0, 0, LARGE, 0])),
            None,
            None,
        ],
        row: 7,
        world: 7,
        place: Place::Scale {
            col: TableCol::Of(Col::Home(1)),
        },
        op: Op::Div,
        left: (1, HUGE),
        right: (LARGE as i128, 1),
    },
    Case {
        own: 1,
        next: LARGE,
        done: [
            Some(Change::World([0, 0, 0, 0, 0, 0, 0, 1, LARGE])),
            None,
            None,
        ],
        row: 7,
        world: 7,
        place: Place::Times {
            row: 8,
            col: TableCol::Of(Col::Home(1)),
        },
        op: Op::Mul,
        left: (LARGE as i128, 1),
        right: (HUGE, 1),
    },
    Case {
        own: 1,
        next: LARGE,
        done: [
            Some(Change::World([0, 0, 0, 0, 0, 0, 0, 1, 1])),
            Some(Change::Pivot(7, Col::World(7))),
            Some(Change::World([0, 0, 0, 0, 0, 0, 0, 1, 2])),
        ],
        row: 7,
        world: 8,
        place: Place::Minus {
            row: 8,
            col: TableCol::Of(Col::Home(1)),
        },
        op: Op::Sub,
        left: (-HUGE, 1),
        right: (HUGE, 1),
    },
];

/// What the pivot of a case answers; `None` where it may not be asked for.
fn try_pivot(table: &mut Table, case: &Case) -> Option<Result<(), TableError>> {
    let col = Col::World(case.world);
    if can_pivot(table, case.row, col) {
        Some(table.pivot(case.row, col))
    } else {
        None
    }
}

/// Makes a change, and tells whether it was done.
fn is_done(table: &mut Table, change: Change) -> bool {
    match change {
        Change::World(entries) => adds(table, &entries),
        Change::Pivot(row, col) => pivots(table, row, col),
    }
}

/// Makes a change, where there is one, and tells whether it was done.
fn is_done_or_none(table: &mut Table, change: Option<Change>) -> bool {
    match change {
        Some(change) => is_done(table, change),
        None => true,
    }
}

/// The entries of a world of the chain.
fn link(row: usize, own: i64, next: i64) -> [i64; 9] {
    let mut entries = [0i64; 9];
    if row < 8 {
        entries[row] = own;
        entries[row + 1] = next;
    }
    entries
}

/// Makes worlds basic in rows 1 to 6, one after the other.
pub(crate) fn is_chained(table: &mut Table, own: i64, next: i64) -> bool {
    for row in 1..7u32 {
        let added = adds(table, &link(row as usize, own, next));
        if !added || !pivots(table, row, Col::World(row)) {
            return false;
        }
    }
    true
}

/// Makes the table of a case.
fn is_prepared(table: &mut Table, case: &Case) -> bool {
    is_chained(table, case.own, case.next)
        && is_done_or_none(table, case.done[0])
        && is_done_or_none(table, case.done[1])
        && is_done_or_none(table, case.done[2])
}

/// The entries of all rows, one row after the other, where they aren't too large.
fn entries(alloc: Global, table: &Table) -> Result<Vec<Option<Fraction>>, Fail> {
    let mut list = Vec::new(alloc);
    for row in 0..table.rows() {
        list.push(Some(table.value(row)))?;
        for home in 0..table.rows() {
            list.push(table.entry(row, Col::Home(home)).ok())?;
        }
        for world in 0..table.worlds() {
            list.push(table.entry(row, Col::World(world + 1)).ok())?;
        }
    }
    Ok(list)
}

/// The columns that are basic.
fn basics(alloc: Global, table: &Table) -> Result<Vec<Col>, Fail> {
    let mut list = Vec::new(alloc);
    for row in 0..table.rows() {
        list.push(table.basic(row))?;
    }
    Ok(list)
}

/// Whether the operands that were refused are those of the case.
fn is_named(wide: &WideAt, case: &Case) -> bool {
    wide.place == case.place
        && wide.op == case.op
        && is_fraction(&wide.left, case.left)
        && is_fraction(&wide.right, case.right)
}

/// Whether the refusal is that of the case.
fn is_refused(answer: Option<Result<(), TableError>>, case: &Case) -> bool {
    match answer {
        Some(Err(TableError::Wide(wide))) => is_named(&wide, case),
        _ => false,
    }
}

/// Whether the pivot of a case is refused, and the table stays as it was.
fn stays(alloc: Global, table: &mut Table, case: &Case) -> Result<bool, Fail> {
    if !is_prepared(table, case) {
        return Ok(false);
    }
    let before = (entries(alloc, table)?, basics(alloc, table)?);
    let is_named = is_refused(try_pivot(table, case), case);
    let after = (entries(alloc, table)?, basics(alloc, table)?);
    Ok(is_named && before.0 == after.0 && before.1 == after.1)
}

#[test]
fn wide_places_are_named(rt: HostRuntime) -> Result<(), Fail> {
    let alloc = rt.alloc();
    for case in &CASES {
        let mut table = Table::new(alloc, &[Home::Slack; 9])?;
        assert!(rt; stays(alloc, &mut table, case)?);
    }
    Ok(())
}

/// Whether the entry of the case's world in row 7 is refused as its pivot is.
fn is_entry_refused(table: &mut Table, case: &Case) -> bool {
    let col = Col::World(case.world);
    if !is_prepared(table, case) || table.rows() <= 7 || !is_inside(table, col) {
        return false;
    }
    match table.entry(7, col) {
        Err(wide) => is_named(&wide, case),
        Ok(_) => false,
    }
}

#[test]
fn wide_entries_are_named(rt: HostRuntime) -> Result<(), Fail> {
    let alloc = rt.alloc();
    for case in &CASES[..2] {
        let mut table = Table::new(alloc, &[Home::Slack; 9])?;
        assert!(rt; is_entry_refused(&mut table, case));
    }
    Ok(())
}
