//! Where an operation of the solver was refused.

use crate::col::Col;
use ps_frac::{Fraction, Op};
use thiserror::Error;

/// A column or the right side.
#[derive(Clone, Copy, PartialEq, Eq, Debug, Drop)]
pub enum TableCol {
    /// The right side.
    Right,
    /// A home or a world.
    Of(Col),
}

/// Where an operation was refused; each place has its own operation and operands.
#[derive(Clone, Copy, PartialEq, Eq, Debug, Drop)]
pub enum Place {
    /// The quotient of a row's value and its entry.
    Ratio { row: u32 },
    /// The quotient of the pivot's row in a column and the pivot.
    Scale { col: TableCol },
    /// What a cell loses: the product of its row in the column of the pivot and that quotient.
    Times { row: u32, col: TableCol },
    /// A cell less what it loses.
    Minus { row: u32, col: TableCol },
    /// The sum of what the rows before carry of a column and what this row does.
    Cost { col: Col, row: u32 },
    /// The common multiple of the multipliers' denominators before a row, and the row's.
    Whole { row: u32 },
    /// A row's multiplier times the common multiple of all.
    Scaled { row: u32 },
    /// The common multiple of the values' denominators before a row, and the row's.
    Weight { row: u32 },
    /// A row's value times the common multiple of all: its weight.
    Weighed { row: u32 },
    /// The sum of the weights before a row and its weight.
    Total { row: u32 },
    /// The product of a row's multiplier and a world's entry.
    PriceTimes { world: u32, home: u32 },
    /// The sum of these products before a home and its product.
    PricePlus { world: u32, home: u32 },
    /// The product of a home's cell in a row and a world's entry.
    ColumnTimes { world: u32, row: u32, home: u32 },
    /// The sum of these products before a home and its product.
    ColumnPlus { world: u32, row: u32, home: u32 },
}

/// An operation that was refused, with its place and operands.
#[derive(Clone, Copy, PartialEq, Eq, Debug, Drop, Error)]
#[error("a number of the table is too large")]
pub struct WideAt {
    /// Where the operation was refused.
    pub place: Place,
    /// The operation.
    pub op: Op,
    /// Its left operand.
    pub left: Fraction,
    /// Its right operand.
    pub right: Fraction,
}
