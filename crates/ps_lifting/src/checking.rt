//! The test of a solution in whole numbers.
ghost use Rattle.std.specs.Prelude.{◌≡◌, ◌+ℤ◌, ◌*ℤ◌, length, IfSome, IsTrue};
ghost use Rattle.std.specs.List.{AllZip};
ghost use Rattle.ps_lifting.specs.Systems.{dot_product, Meets};

use ps_io::List;

// The sum and a product.
fn with_product(sum: i128, a: i64, x: i128) -> Option<i128>
    ensures { IfSome result (λ s. s ≡ sum +ℤ (a *ℤ x)) }
{
    sum.checked_add((a as i128).checked_mul(x)?)
}

#[tactic(auto, using(crate::proofs::Products::dot_product_more))]
// The sum of the products, where no number on the way is too wide.
fn dot_product_of(row: &[i64], x: &[i128]) -> Option<i128>
    ensures sized { IfSome result (λ s. length row.now ≡ length x.now) }
    ensures sum { IfSome result (λ s. s ≡ dot_product row.now x.now) }
{
    if row.len() != x.len() {
        return None;
    }
    let mut sum: i128 = 0;
    for j in 0..row.len() {
        sum = with_product(sum, row[j], x[j])?;
    }
    Some(sum)
}

// Whether the numerators give a right side, times the denominator.
fn meets(row: &[i64], right: i64, x: &[i128], denominator: i128) -> bool
    ensures { IsTrue result → Meets x.now denominator row.now right }
{
    match (
        dot_product_of(row, x),
        (right as i128).checked_mul(denominator),
    ) {
        (Some(sum), Some(wanted)) => sum == wanted,
        _ => false,
    }
}

/// Whether the numerators over the denominator solve the system. It is refused, too, where a number
/// of the test is past 128 bits.
#[tactic(auto, using(crate::proofs::Products::met_more, crate::proofs::Products::met_all))]
pub fn solves(rows: &[List<i64>], right: &[i64], x: &[i128], denominator: i128) -> bool
    ensures { IsTrue result → AllZip (Meets x.now denominator) rows.now right.now }
{
    if rows.len() != right.len() {
        return false;
    }
    for i in 0..rows.len() {
        if !meets(rows[i].as_slice(), right[i], x, denominator) {
            return false;
        }
    }
    true
}
