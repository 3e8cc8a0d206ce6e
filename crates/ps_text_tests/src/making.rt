//! Texts of short chains, written by hand.
use ps_make::make_text;
use std::alloc::Global;

const TEXTS: [(u32, &[u8]); 2] = [
    (
        1,
        b"psat 1;\nP(x0) >= 9/10;\nP(x0 -> x1) >= 99/100;\nquery P(x1);\nend;\n",
    ),
    (
        2,
        b"psat 1;\nP(x0) >= 9/10;\nP(x0 -> x1) >= 99/100;\nP(x1 -> x2) >= 99/100;\nquery P(x2);\nend;\n",
    ),
];

// Whether each chain has its text.
fn have_their_texts(alloc: Global, rows: &[(u32, &[u8])]) -> bool {
    for row in rows {
        if row.0 > 90 {
            return false;
        }
        match make_text(alloc, row.0) {
            Ok(found) => {
                if found.as_slice() != row.1 {
                    return false;
                }
            }
            Err(_) => return false,
        }
    }
    true
}

#[test]
fn short_chains_have_their_texts(rt: HostRuntime) {
    assert!(rt; have_their_texts(rt.alloc(), &TEXTS));
}
