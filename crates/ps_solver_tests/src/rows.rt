//! A row that tests share.
ghost use Rattle.std.specs.Prelude.{◌≡◌, pos, negsuc, ◌∷◌, [], IfOk};
ghost use Rattle.ps_meaning.specs.declared.side.Side.TheVariants.{AtLeast};

use ps_io::{List, NoMemory};
use ps_problem::{Row, Side};
use std::alloc::Global;

/// The row of `P(a given b) >= 1/4` over the nodes `a`, `b` and `a & b`.
pub(crate) fn lower_row(alloc: Global) -> Result<Row, NoMemory>
    ensures { IfOk result (λ row. row ≡ record {
      side = AtLeast;
      unit = 4;
      base = pos 0;
      terms = (2, pos 4) ∷ (1, negsuc 0) ∷ [];
    }) }
{
    let mut terms = List::new(alloc);
    terms.push((2, 4))?;
    terms.push((1, -1))?;
    Ok(Row {
        side: Side::AtLeast,
        unit: 4,
        base: 0,
        terms,
    })
}
