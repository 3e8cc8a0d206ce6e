//! Systems of one row and of two, worked out by hand.

use super::case::{Case, End, Stage};
use crate::Settled;
use ps_simplex::Phase;
use ps_table::{Col, Home};

pub(crate) const ONE_ROW: [Case<1>; 1] = [
    // No pivot is left, and all is as it was.
    Case {
        homes: [Home::Artificial],
        worlds: &[[3]],
        query: &[0],
        limit: 0,
        stages: &[Stage {
            phase: Phase::One,
            end: End::Settled(Settled::OutOfPivots),
            pivots: &[],
            left: 0,
            values: [(1, 1)],
            basic: [Col::Home(0)],
        }],
    },
];

pub(crate) const TWO_ROWS: [Case<2>; 1] = [
    // Two worlds make phase one feasible.
    Case {
        homes: [Home::Artificial, Home::Slack],
        worlds: &[[1, 2], [1, -1]],
        query: &[0, 0],
        limit: 5,
        stages: &[Stage {
            phase: Phase::One,
            end: End::Settled(Settled::Feasible),
            pivots: &[(Col::World(1), 1), (Col::World(2), 0)],
            left: 3,
            values: [(2, 3), (1, 3)],
            basic: [Col::World(2), Col::World(1)],
        }],
    },
];
