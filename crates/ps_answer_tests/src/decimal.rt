//! Decimals of known fractions.
use ps_frac::{Decimal, Fraction, MOST_DIGITS, has_decimals};
use std::alloc::Global;
use std::test::*;

// A fraction, and its decimals of so many digits, as they are written.
struct Row {
    over: i128,
    under: i128,
    digits: u32,
    down: &'static str,
    up: &'static str,
}

const GREAT: i128 = 1 << 90;

const ROWS: [Row; 7] = [
    Row {
        over: 25,
        under: 322,
        digits: 6,
        down: "0.077639",
        up: "0.077640",
    },
    Row {
        over: 1,
        under: 3,
        digits: 4,
        down: "0.3333",
        up: "0.3334",
    },
    Row {
        over: 0,
        under: 1,
        digits: 1,
        down: "0.0",
        up: "0.0",
    },
    Row {
        over: 1,
        under: 1,
        digits: 2,
        down: "1.00",
        up: "1.00",
    },
    Row {
        over: 1,
        under: 8,
        digits: 3,
        down: "0.125",
        up: "0.125",
    },
    Row {
        over: GREAT - 1,
        under: GREAT,
        digits: 6,
        down: "0.999999",
        up: "1.000000",
    },
    Row {
        over: 2,
        under: 3,
        digits: 18,
        down: "0.666666666666666666",
        up: "0.666666666666666667",
    },
];

fn is_written(alloc: Global, decimal: Decimal, text: &str) -> bool {
    let mut out = Vec::new(alloc);
    decimal.write(&mut out).is_ok() && out.as_slice() == text.as_bytes()
}

fn holds(alloc: Global, row: &Row) -> bool {
    let is_few = 0 < row.digits && row.digits <= MOST_DIGITS;
    if row.over < 0 || GREAT < row.over || row.under < 1 || !is_few {
        return false;
    }
    let fraction = Fraction::new(row.over, row.under);
    has_decimals(&fraction)
        && is_written(alloc, Decimal::down(&fraction, row.digits), row.down)
        && is_written(alloc, Decimal::up(&fraction, row.digits), row.up)
}

#[test]
fn decimals_of_known_fractions(rt: HostRuntime) -> Result<(), Fail> {
    assert!(rt; ROWS.iter().all(|row| holds(rt.alloc(), row)));
    Ok(())
}

#[test]
fn fractions_without_decimals(rt: HostRuntime) -> Result<(), Fail> {
    assert!(rt; !has_decimals(&Fraction::new(-1, 2)) && !has_decimals(&Fraction::new(3, 2)));
    assert!(rt; !has_decimals(&Fraction::new(1, GREAT + 1)));
    Ok(())
}
