//! A system, and what each phase makes of it, one after the other. The tables of cases were
//! computed by a Python program over `fractions`, which solves the table from its basis before each
//! pivot.

use crate::Settled;
use ps_frac::Op;
use ps_simplex::Phase;
use ps_table::{Col, Home, Place};

/// How a phase ends; a fraction is its numerator and its denominator.
#[derive(Drop)]
pub(crate) enum End {
    Settled(Settled),
    Wide {
        place: Place,
        op: Op,
        left: (i128, i128),
        right: (i128, i128),
    },
}

/// What a phase does: its pivots (the column that enters and the row that leaves), how many are
/// left, and the values and the basic columns after them.
#[derive(Drop)]
pub(crate) struct Stage<const N: usize> {
    pub(crate) phase: Phase,
    pub(crate) end: End,
    pub(crate) pivots: &'static [(Col, u32)],
    pub(crate) left: u64,
    pub(crate) values: [(i128, i128); N],
    pub(crate) basic: [Col; N],
}

/// A system of `N` rows, the worlds in which the query holds, and the limit of pivots for all its
/// phases.
#[derive(Drop)]
pub(crate) struct Case<const N: usize> {
    pub(crate) homes: [Home; N],
    pub(crate) worlds: &'static [[i64; N]],
    pub(crate) query: &'static [i8],
    pub(crate) limit: u64,
    pub(crate) stages: &'static [Stage<N>],
}
