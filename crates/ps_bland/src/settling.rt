//! Pivots until an end.
ghost use Rattle.std.specs.Prelude.{◌≡◌, ◌≢◌, ◌+◌, ◌<◌, [], ◌∷◌, ◌++◌, length, IfOk, IfErr, IfSome};
ghost use Rattle.ps_meaning.specs.Rational.{zero_q};
ghost use Rattle.ps_table.specs.Tableau.{rows_of, HasColumn, entry_of, IsPivot, KeepsSystem};
ghost use Rattle.ps_table.specs.Places.{PivotPlaces, IsRefusedAt};
ghost use Rattle.ps_bland.specs.Runs.{Ran, MadeFewerThanBases, MeetsNoBasisTwice};
ghost use Rattle.ps_bland.specs.Ready.{IsReady};
ghost use Rattle.ps_bland.specs.Ends.{IsEnd, IsSettled, IsDueRefusal, AreDueNarrow};
ghost use Rattle.ps_bland.specs.Rounds.{IfPivoted, IfStopped, IsStep, IsNarrowEnd};

use crate::entering::entering;
use crate::feasible::is_due_to_end;
use crate::leaving::leaving;
use crate::settled::Settled;
use ps_simplex::Phase;
use ps_table::{Col, Costs, Event, Table, TableError, Trace};

/// The pivot and its event, or neither.
fn pivot_with_event(
    table: &mut Table,
    trace: &mut Trace,
    enter: Col,
    leave: u32,
) -> Result<(), TableError>
    requires inside { HasColumn table.old enter }
    requires leave { leave < rows_of table.old }
    requires pivot { entry_of table.old leave enter ≢ zero_q }
    ensures pivot { IfOk result (λ _. IsPivot leave enter table.old table.new) }
    ensures event { IfOk result (λ _. trace.new ≡ trace.old ++ Event.Pivot enter leave ∷ []) }
    ensures stands { IfOk result (λ _. KeepsSystem table.old table.new) }
    ensures table_same { IfErr result (λ _. table.new ≡ table.old) }
    ensures trace_same { IfErr result (λ _. trace.new ≡ trace.old) }
    ensures refused { IfErr result (IsRefusedAt (PivotPlaces table.old leave enter)) }
{
    trace.push(Event::Pivot { enter, leave })?;
    if let Err(refused) = table.pivot(leave, enter) {
        trace.pop();
        return Err(refused);
    }
    Ok(())
}

/// One round: an end, or one lawful pivot.
fn step(
    table: &mut Table,
    costs: &Costs,
    phase: Phase,
    left: &mut u64,
    trace: &mut Trace,
) -> Result<Option<Settled>, TableError>
    requires { IsReady phase costs.now table.old }
    ensures pivot { IfPivoted result
        (IsStep phase costs.now table.old table.new trace.old trace.new) }
    ensures table_same { IfStopped result (table.new ≡ table.old) }
    ensures trace_same { IfStopped result (trace.new ≡ trace.old) }
    ensures end { IfOk result (λ end. IfSome end (IsSettled phase costs.now table.new left.new)) }
    ensures refused { IfErr result (IsDueRefusal phase costs.now table.new left.new) }
    ensures counted { left.new + length trace.new ≡ left.old + length trace.old }
    ensures narrow { IfOk result (IsNarrowEnd phase costs.now table.new left.new) }
    ensures ready { IsReady phase costs.now table.new }
    ensures stands { KeepsSystem table.old table.new }
{
    if is_due_to_end(phase, table) {
        return Ok(Some(Settled::Feasible));
    }
    let enter = match entering(table, costs)? {
        Some(enter) => enter,
        None => return Ok(Some(Settled::AtRest)),
    };
    if *left == 0 {
        return Ok(Some(Settled::OutOfPivots));
    }
    let leave = leaving(table, phase, enter)?;
    pivot_with_event(table, trace, enter, leave)?;
    *left -= 1;
    Ok(None)
}

/// Pivots by Bland's rule until an end (R. G. Bland, "New finite pivoting rules for the simplex
/// method", Mathematics of Operations Research 2, 1977).
///
/// In each round the slack or world of least number that carries more than its cost enters; an
/// artificial never does. In the phases `Lower` and `Upper` the least row leaves that has a basic
/// artificial and an entry other than 0 in that column. Where there is none, and in phase `One`,
/// a row of least ratio of value to entry leaves, among those with an entry above 0; of several
/// the one whose basic column has the least number. A pivot lowers `left` by 1, and its event is
/// appended to `trace`.
///
/// - `Feasible` comes in phase `One` alone, where each basic artificial has value 0.
/// - Else `AtRest` comes where no column improves.
/// - Else `OutOfPivots` comes where `left` is 0.
///
/// `Wide` names a place of the table as it is left, with the operands there: what a column
/// carries, where no column before it improves, or, while a pivot is left, a ratio or a number of
/// the pivot that is due. Where an end is answered no such number of the table as it is left is
/// too large. `NoMemory` comes only where a pivot is due. After either, table, `left` and `trace`
/// are those after the last whole pivot.
///
/// A table is ready for a phase with the costs that `ready_tables` names, and stays so. Then a
/// column that improves always has a row that leaves: no answer says that there is no bound. From
/// the first table to the last no basis comes twice, not even with the same columns in other rows;
/// so fewer pivots are made than there are ways to choose the basic columns.
pub fn settle(
    table: &mut Table,
    costs: &Costs,
    phase: Phase,
    left: &mut u64,
    trace: &mut Trace,
) -> Result<Settled, TableError>
    requires ready { IsReady phase costs.now table.old }
    ensures ran { Ran phase costs.now table.old table.new trace.old trace.new }
    ensures counted { left.new + length trace.new ≡ left.old + length trace.old }
    ensures end { IsEnd phase costs.now table.new left.new result }
    ensures narrow { IfOk result (λ _. AreDueNarrow phase costs.now table.new left.new) }
    ensures kinds { table.new.kinds ≡ table.old.kinds }
    ensures worlds { table.new.worlds ≡ table.old.worlds }
    ensures ready { IsReady phase costs.now table.new }
    ensures stands { KeepsSystem table.old table.new }
    ensures no_cycle { MeetsNoBasisTwice phase costs.now table.old trace.old trace.new }
    ensures fewer { MadeFewerThanBases table.old left.old left.new }
{
    // Called for its clauses: the table is in the form in which tables are kept.
    let _sound = table.rows();
    loop {
        match step(table, costs, phase, left, trace)? {
            None => {}
            Some(settled) => return Ok(settled),
        }
    }
}
