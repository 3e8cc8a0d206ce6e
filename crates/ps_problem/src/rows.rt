//! The making of rows.
ghost use Rattle.std.specs.Prelude.{◌≡◌, ◌≤◌, ◌++◌, [], ◌∷◌, OnOk, IfOk, unsigned_abs};
ghost use Rattle.ps_problem.specs.declared.limits.TheConstants.{MOST_SIZES};
ghost use Rattle.ps_problem.specs.Problems.{PlainIn, LinearIn, right_at};
ghost use Rattle.ps_problem.specs.Rows.{row_at, rows_in, HasSmallRights};

use crate::{Bound, Linear, LinearTerms, Row, Sentence};
use ps_io::{List, NoMemory};
use std::alloc::Global;

// The row of a plain bound.
fn plain_row(alloc: Global, bound: Bound) -> Result<Row, NoMemory>
    ensures { IfOk result (λ r. r ≡ row_at (PlainIn bound)) }
{
    let mut terms = List::new(alloc);
    terms.push((bound.both, i64::from(bound.den)))?;
    let base = match bound.given {
        Some(given) => {
            terms.push((given, -i64::from(bound.num)))?;
            0
        }
        None => -i64::from(bound.num),
    };
    Ok(Row {
        side: bound.side,
        unit: bound.den,
        base,
        terms,
    })
}

// A copy of terms.
fn copy_of(alloc: Global, terms: &LinearTerms) -> Result<LinearTerms, NoMemory>
    ensures { IfOk result (λ r. r ≡ terms.now) }
{
    Ok(List::from_vec(terms.as_slice().to_vec(alloc)?))
}

// The row of a linear sentence's bound.
fn linear_row(alloc: Global, linear: &Linear, upper: bool) -> Result<Row, NoMemory>
    requires { unsigned_abs (right_at linear.now upper) ≤ MOST_SIZES }
    ensures { IfOk result (λ r. r ≡ row_at (LinearIn linear.now upper)) }
{
    let terms = copy_of(alloc, &linear.terms)?;
    Ok(Row {
        side: linear.side_of(upper),
        unit: linear.scale,
        base: -linear.right_of(upper),
        terms,
    })
}

/// Puts the rows of a sentence's bounds behind those before them. For want of memory perhaps only the
/// first of an interval's two.
pub fn push_rows(alloc: Global, rows: &mut List<Row>, sentence: &Sentence) -> Result<(), NoMemory>
    requires { HasSmallRights sentence.now }
    ensures { OnOk result (rows.new ≡ rows.old ++ rows_in (sentence.now ∷ [])) }
{
    match sentence {
        Sentence::Plain { first, second } => {
            rows.push(plain_row(alloc, *first)?)?;
            if let Some(second) = second {
                rows.push(plain_row(alloc, *second)?)?;
            }
        }
        Sentence::Linear(linear) => {
            rows.push(linear_row(alloc, linear, false)?)?;
            if linear.upper.is_some() {
                rows.push(linear_row(alloc, linear, true)?)?;
            }
        }
    }
    Ok(())
}
