//! The signs of multipliers.
ghost use Rattle.std.specs.Prelude.{◌≡◌, ◌≤◌, ◌↔◌, IsTrue, length};
ghost use Rattle.ps_problem.specs.declared.limits.TheConstants.{MOST_BOUNDS};
ghost use Rattle.ps_claims.specs.Duals.{HasSign};
ghost use Rattle.ps_valid.specs.DualTests.{FindsSignAt};

use ps_problem::{Row, Side};

fn has_sign(side: Side, multiplier: i128) -> bool
    ensures { IsTrue result ↔ HasSign side multiplier }
{
    match side {
        Side::AtLeast => 0 <= multiplier,
        Side::AtMost => multiplier <= 0,
        Side::Exactly => true,
    }
}

/// The number of the first row whose multiplier is of the wrong sign.
#[tactic(auto, using(crate::proofs::WrongSigns::signs_more))]
pub fn first_wrong_sign(rows: &[Row], multipliers: &[i128]) -> Option<u32>
    requires lengths { length multipliers.now ≡ length rows.now }
    requires few { length rows.now ≤ MOST_BOUNDS }
    ensures { FindsSignAt rows.now multipliers.now result }
{
    for i in 0..rows.len() {
        if !has_sign(rows[i].side, multipliers[i]) {
            return Some(i as u32 + 1);
        }
    }
    None
}
