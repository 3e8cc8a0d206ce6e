ghost use Rattle.std.specs.Prelude.{◌≡◌, []};
ghost use Rattle.ps_io.specs.Lines.{text_of};

use ps_frac::{Fraction, Op};
use ps_io::{Lines, MemSink, Sink, WriteFault};
use ps_report::{
    write_bound, write_dual_head, write_end, write_model_head, write_open_conflicts,
    write_open_wide, write_query, write_report_head,
};
use ps_table::{Col, Place, TableCol, WideAt};
use std::alloc::Global;

const WRITTEN: &[u8] =
    b"report 1\nmodel 10 2\ndual 3 -7 0\nopen conflicts 5\nopen wide column-times 12 3 7 mul -5/7 1/2\nopen wide times 4 w12 mul -5/7 1/2\nquery 2\nupper 1/2\nend\n";

// The number of the write that fails, and how many bytes were written by pieces of 16.
const PREFIXES: [(u64, usize); 5] = [(1, 0), (2, 9), (4, 32), (7, 65), (14, 145)];

fn refused(place: Place) -> WideAt {
    WideAt {
        place,
        op: Op::Mul,
        left: Fraction::new(-5, 7),
        right: Fraction::new(2, 4),
    }
}

fn write_lines<O: Sink>(lines: &mut Lines<'_, O>) -> Result<(), WriteFault>
    requires { text_of lines.old ≡ [] }
{
    write_report_head(lines)?;
    write_model_head(lines, &10, 2)?;
    write_dual_head(lines, &3, &-7, 0)?;
    write_open_conflicts(lines, 5)?;
    let place = Place::ColumnTimes {
        world: 12,
        row: 3,
        home: 7,
    };
    write_open_wide(lines, &refused(place))?;
    let col = TableCol::Of(Col::World(12));
    write_open_wide(lines, &refused(Place::Times { row: 4, col }))?;
    write_query(lines, 2)?;
    write_bound(lines, true, &Fraction::new(2, 4))?;
    write_end(lines)
}

// Whether the lines are written up to a place, where one write fails.
fn are_written(alloc: Global, call: u64, length: usize) -> Option<bool> {
    let mut sink = MemSink::new(alloc, 16, vec![in alloc; call].ok()?, 200).ok()?;
    let mut lines = Lines::new(alloc, &mut sink).ok()?;
    let done = write_lines(&mut lines).is_ok();
    Some(done == (length == WRITTEN.len()) && WRITTEN.get(..length) == Some(sink.bytes()))
}

fn stop_at_faults(alloc: Global) -> bool {
    for (call, length) in &PREFIXES {
        if are_written(alloc, *call, *length) != Some(true) {
            return false;
        }
    }
    true
}

#[test]
fn lines_are_written(rt: HostRuntime) {
    assert!(rt; are_written(rt.alloc(), 99, WRITTEN.len()) == Some(true));
    assert!(rt; stop_at_faults(rt.alloc()));
}
