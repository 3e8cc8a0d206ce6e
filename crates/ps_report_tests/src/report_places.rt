//! Lines of places that name a world: what is written is read, and what isn't, isn't.
use ps_answer::{LineItem, LineKind, Part};
use ps_frac::{Fraction, Op};
use ps_io::{Lines, MemSink};
use ps_reader::{LineError, read_line};
use ps_report::write_open_wide;
use ps_table::{Place, WideAt};
use std::alloc::Global;

// Places of the greatest and the least numbers and others, and their lines.
const PLACES: [(Place, Op, &[u8]); 6] = [
    (
        Place::PriceTimes { world: 12, home: 7 },
        Op::Mul,
        b"open wide price-times 12 7 mul -5/7 1/2\n",
    ),
    (
        Place::PricePlus {
            world: 1_000_001,
            home: 100,
        },
        Op::Add,
        b"open wide price-plus 1000001 100 add -5/7 1/2\n",
    ),
    (
        Place::PricePlus { world: 1, home: 0 },
        Op::Add,
        b"open wide price-plus 1 0 add -5/7 1/2\n",
    ),
    (
        Place::ColumnTimes {
            world: 12,
            row: 3,
            home: 7,
        },
        Op::Mul,
        b"open wide column-times 12 3 7 mul -5/7 1/2\n",
    ),
    (
        Place::ColumnPlus {
            world: 1_000_001,
            row: 0,
            home: 100,
        },
        Op::Add,
        b"open wide column-plus 1000001 0 100 add -5/7 1/2\n",
    ),
    (
        Place::ColumnPlus {
            world: 1,
            row: 100,
            home: 0,
        },
        Op::Add,
        b"open wide column-plus 1 100 0 add -5/7 1/2\n",
    ),
];

// Lines at fault, and how: those with names that no place has any more, and others.
const REFUSED: [(&[u8], LineKind); 16] = [
    (
        b"open wide new-times 3 7 mul -5/7 1/2\n",
        LineKind::NotCanonical,
    ),
    (
        b"open wide new-plus 0 100 add -5/7 1/2\n",
        LineKind::NotCanonical,
    ),
    (
        b"open wide price-times 0 7 mul -5/7 1/2\n",
        LineKind::TooLarge,
    ),
    (
        b"open wide price-times 1000002 7 mul -5/7 1/2\n",
        LineKind::TooLarge,
    ),
    (
        b"open wide price-plus 1 101 add -5/7 1/2\n",
        LineKind::TooLarge,
    ),
    (
        b"open wide price-plus w1 7 add -5/7 1/2\n",
        LineKind::NotCanonical,
    ),
    (
        b"open wide price-times 1 h7 mul -5/7 1/2\n",
        LineKind::NotCanonical,
    ),
    (
        b"open wide price-times 1 mul -5/7 1/2\n",
        LineKind::NotCanonical,
    ),
    (
        b"open wide price-plus 1 7 7 add -5/7 1/2\n",
        LineKind::NotCanonical,
    ),
    (
        b"open wide column-times 0 3 7 mul -5/7 1/2\n",
        LineKind::TooLarge,
    ),
    (
        b"open wide column-times 12 101 7 mul -5/7 1/2\n",
        LineKind::TooLarge,
    ),
    (
        b"open wide column-plus 12 3 101 add -5/7 1/2\n",
        LineKind::TooLarge,
    ),
    (
        b"open wide column-plus 1000002 3 x add -5/7 1/2\n",
        LineKind::NotCanonical,
    ),
    (
        b"open wide column-plus 012 3 7 add -5/7 1/2\n",
        LineKind::NotCanonical,
    ),
    (
        b"open wide column-times 12 3 mul -5/7 1/2\n",
        LineKind::NotCanonical,
    ),
    (b"open wide column-times\n", LineKind::NotCanonical),
];

// Whether this is written of a place.
fn is_written(alloc: Global, place: &Place, op: &Op, line: &[u8]) -> Option<bool> {
    let mut sink = MemSink::new(alloc, 100, vec![in alloc; 99].ok()?, 100).ok()?;
    let mut lines = Lines::new(alloc, &mut sink).ok()?;
    let wide = WideAt {
        place: *place,
        op: *op,
        left: Fraction::new(-5, 7),
        right: Fraction::new(2, 4),
    };
    let done = write_open_wide(&mut lines, &wide).is_ok();
    Some(done && sink.bytes() == line)
}

// Whether a line says this of a place, and nothing follows it.
fn is_read(alloc: Global, place: &Place, op: &Op, line: &[u8]) -> bool {
    match read_line(alloc, Part::ACause, line) {
        Ok(
            (
                LineItem::OpenWide {
                    place: found,
                    op: by,
                    left,
                    right,
                },
                rest,
            ),
        ) => {
            found == *place
                && by == *op
                && left.over == -5
                && left.under == 7
                && right.over == 1
                && right.under == 2
                && rest.is_empty()
        }
        _ => false,
    }
}

fn are_written_and_read(alloc: Global) -> bool {
    for (place, op, line) in &PLACES {
        if is_written(alloc, place, op, line) != Some(true) || !is_read(alloc, place, op, line) {
            return false;
        }
    }
    true
}

fn are_refused(alloc: Global) -> bool {
    for (line, kind) in &REFUSED {
        match read_line(alloc, Part::ACause, line) {
            Err(LineError::Fault(found)) if found == *kind => {}
            _ => return false,
        }
    }
    true
}

#[test]
fn places_of_worlds_are_written_and_read(rt: HostRuntime) {
    assert!(rt; are_written_and_read(rt.alloc()));
}

#[test]
fn places_at_fault_are_refused(rt: HostRuntime) {
    assert!(rt; are_refused(rt.alloc()));
}
