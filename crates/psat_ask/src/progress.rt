//! How far an answer is, in words.
use ps_ask::{ClaimKind, Progress, Sought};
use std::alloc::{AllocError, Global};
use std::num::saturating_f64_to_i64;

/// A gap is shown in parts of this, rounded up.
const PARTS: i64 = 10_000;

/// What is sought, in words.
pub fn words_of(alloc: Global, sought: Sought) -> Result<String, AllocError> {
    match sought {
        Sought::Verdict => format!(in alloc; "verdict"),
        Sought::Query { number, of } => format!(in alloc; "query {number} of {of}"),
        Sought::Clash => format!(in alloc; "sentences that clash"),
        Sought::Conditions => format!(in alloc; "conditions"),
    }
}

// The side of a query that is sought, in words.
fn side_of(kind: ClaimKind) -> &'static str {
    match kind {
        ClaimKind::Nothing => "",
        ClaimKind::Lower => ", lower bound",
        ClaimKind::Upper => ", upper bound",
    }
}

/// How far it is: how many worlds are known, and how far the value is from its end, with four digits
/// behind the point.
pub fn figures_of(
    alloc: Global,
    kind: ClaimKind,
    progress: Progress,
) -> Result<String, AllocError> {
    let side = side_of(kind);
    let worlds = progress.worlds;
    let parts = saturating_f64_to_i64((progress.gap * PARTS as f64).ceil()).max(0);
    let (whole, rest) = (parts / PARTS, parts % PARTS);
    format!(in alloc; "{side}: {worlds} worlds, gap {whole}.{rest:04}")
}
