//! Known numbers of pivots. The expected values were computed by Python's `math.comb`.

use ps_simplex::enough_pivots;

/// Rows, worlds, and the pivots that are enough.
const CASES: [(u32, u64, Option<u64>); 10] = [
    (2, 2, Some(30)),
    (6, 8, Some(19_305)),
    (101, 8, None),
    (1, 1, Some(9)),
    (101, 2, Some(16_068)),
    (101, 3, Some(562_380)),
    (1, 814, Some(997_560)),
    (1, 815, None),
    (5, 1 << 40, None),
    (101, u64::MAX, None),
];

fn cases_agree() -> bool {
    for k in 0..CASES.len() {
        let (rows, worlds, expected) = CASES[k];
        if rows == 0 || rows > 101 || worlds == 0 || enough_pivots(rows, worlds) != expected {
            return false;
        }
    }
    true
}

#[test]
fn known_numbers(rt: HostRuntime) {
    assert!(rt; cases_agree());
}
