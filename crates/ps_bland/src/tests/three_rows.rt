//! Systems of three rows whose phases come to an end.

use super::case::{Case, End, Stage};
use crate::Settled;
use ps_simplex::Phase;
use ps_table::{Col, Home};

pub(crate) const THREE_ROWS: [Case<3>; 13] = [
    // Pivots in each phase, and none left at the last rest.
    Case {
        homes: [Home::Artificial, Home::Slack, Home::Slack],
        worlds: &[[1, -2, -1], [1, 1, 2], [1, -3, -1]],
        query: &[1, 0, 0],
        limit: 5,
        stages: &[
            Stage {
                phase: Phase::One,
                end: End::Settled(Settled::Feasible),
                pivots: &[(Col::World(1), 0)],
                left: 4,
                values: [(1, 1), (2, 1), (1, 1)],
                basic: [Col::World(1), Col::Home(1), Col::Home(2)],
            },
            Stage {
                phase: Phase::Lower,
                end: End::Settled(Settled::AtRest),
                pivots: &[(Col::World(2), 2), (Col::World(3), 0)],
                left: 2,
                values: [(2, 3), (5, 3), (1, 3)],
                basic: [Col::World(3), Col::Home(1), Col::World(2)],
            },
            Stage {
                phase: Phase::Upper,
                end: End::Settled(Settled::AtRest),
                pivots: &[(Col::World(1), 0), (Col::Home(2), 2)],
                left: 0,
                values: [(1, 1), (2, 1), (1, 1)],
                basic: [Col::World(1), Col::Home(1), Col::Home(2)],
            },
        ],
    },
    // Phase one comes to rest; two rows of equal ratio.
    Case {
        homes: [Home::Artificial, Home::Artificial, Home::Artificial],
        worlds: &[[1, 3, -1], [1, 1, 3]],
        query: &[1, 0],
        limit: 9,
        stages: &[Stage {
            phase: Phase::One,
            end: End::Settled(Settled::AtRest),
            pivots: &[(Col::World(1), 1), (Col::World(2), 2)],
            left: 7,
            values: [(1, 1), (0, 1), (0, 1)],
            basic: [Col::Home(0), Col::World(1), Col::World(2)],
        }],
    },
    // Three rows of artificial homes; all three leave.
    Case {
        homes: [Home::Artificial, Home::Artificial, Home::Artificial],
        worlds: &[[1, 1, -2], [1, -2, 2], [1, 0, 0]],
        query: &[1, 1, 1],
        limit: 9,
        stages: &[
            Stage {
                phase: Phase::One,
                end: End::Settled(Settled::Feasible),
                pivots: &[(Col::World(2), 2), (Col::World(1), 0), (Col::World(3), 1)],
                left: 6,
                values: [(0, 1), (1, 1), (0, 1)],
                basic: [Col::World(1), Col::World(3), Col::World(2)],
            },
            Stage {
                phase: Phase::Lower,
                end: End::Settled(Settled::AtRest),
                pivots: &[],
                left: 6,
                values: [(0, 1), (1, 1), (0, 1)],
                basic: [Col::World(1), Col::World(3), Col::World(2)],
            },
            Stage {
                phase: Phase::Upper,
                end: End::Settled(Settled::AtRest),
                pivots: &[],
                left: 6,
                values: [(0, 1), (1, 1), (0, 1)],
                basic: [Col::World(1), Col::World(3), Col::World(2)],
            },
        ],
    },
    // Of two equal ratios that of the lesser basic column, in the greater row, leaves.
    Case {
        homes: [Home::Artificial, Home::Slack, Home::Slack],
        worlds: &[[1, -2, -3], [1, -1, 0]],
        query: &[1, 0],
        limit: 9,
        stages: &[
            Stage {
                phase: Phase::One,
                end: End::Settled(Settled::Feasible),
                pivots: &[(Col::World(1), 0)],
                left: 8,
                values: [(1, 1), (2, 1), (3, 1)],
                basic: [Col::World(1), Col::Home(1), Col::Home(2)],
            },
            Stage {
                phase: Phase::Lower,
                end: End::Settled(Settled::AtRest),
                pivots: &[(Col::World(2), 2)],
                left: 7,
                values: [(0, 1), (1, 1), (1, 1)],
                basic: [Col::World(1), Col::Home(1), Col::World(2)],
            },
            Stage {
                phase: Phase::Upper,
                end: End::Settled(Settled::AtRest),
                pivots: &[(Col::Home(2), 2)],
                left: 6,
                values: [(1, 1), (2, 1), (3, 1)],
                basic: [Col::World(1), Col::Home(1), Col::Home(2)],
            },
        ],
    },
    // The same for the greatest value.
    Case {
        homes: [Home::Artificial, Home::Slack, Home::Slack],
        worlds: &[[1, -2, -2], [1, 0, 0]],
        query: &[0, 1],
        limit: 9,
        stages: &[
            Stage {
                phase: Phase::One,
                end: End::Settled(Settled::Feasible),
                pivots: &[(Col::World(1), 0)],
                left: 8,
                values: [(1, 1), (2, 1), (2, 1)],
                basic: [Col::World(1), Col::Home(1), Col::Home(2)],
            },
            Stage {
                phase: Phase::Lower,
                end: End::Settled(Settled::AtRest),
                pivots: &[],
                left: 8,
                values: [(1, 1), (2, 1), (2, 1)],
                basic: [Col::World(1), Col::Home(1), Col::Home(2)],
            },
            Stage {
                phase: Phase::Upper,
                end: End::Settled(Settled::AtRest),
                pivots: &[(Col::World(2), 1)],
                left: 7,
                values: [(0, 1), (1, 1), (0, 1)],
                basic: [Col::World(1), Col::World(2), Col::Home(2)],
            },
        ],
    },
    // An artificial row with an entry below 0 leaves.
    Case {
        homes: [Home::Artificial, Home::Slack, Home::Artificial],
        worlds: &[[1, 1, -3], [1, -3, 0]],
        query: &[0, 1],
        limit: 9,
        stages: &[
            Stage {
                phase: Phase::One,
                end: End::Settled(Settled::Feasible),
                pivots: &[(Col::World(2), 0)],
                left: 8,
                values: [(1, 1), (3, 1), (0, 1)],
                basic: [Col::World(2), Col::Home(1), Col::Home(2)],
            },
            Stage {
                phase: Phase::Lower,
                end: End::Settled(Settled::AtRest),
                pivots: &[(Col::World(1), 2)],
                left: 7,
                values: [(1, 1), (3, 1), (0, 1)],
                basic: [Col::World(2), Col::Home(1), Col::World(1)],
            },
            Stage {
                phase: Phase::Upper,
                end: End::Settled(Settled::AtRest),
                pivots: &[],
                left: 7,
                values: [(1, 1), (3, 1), (0, 1)],
                basic: [Col::World(2), Col::Home(1), Col::World(1)],
            },
        ],
    },
    // The same for the greatest value.
    Case {
        homes: [Home::Artificial, Home::Artificial, Home::Slack],
        worlds: &[[1, 0, -3], [1, -1, 0]],
        query: &[0, 1],
        limit: 9,
        stages: &[
            Stage {
                phase: Phase::One,
                end: End::Settled(Settled::Feasible),
                pivots: &[(Col::World(1), 0)],
                left: 8,
                values: [(1, 1), (0, 1), (3, 1)],
                basic: [Col::World(1), Col::Home(1), Col::Home(2)],
            },
            Stage {
                phase: Phase::Lower,
                end: End::Settled(Settled::AtRest),
                pivots: &[],
                left: 8,
                values: [(1, 1), (0, 1), (3, 1)],
                basic: [Col::World(1), Col::Home(1), Col::Home(2)],
            },
            Stage {
                phase: Phase::Upper,
                end: End::Settled(Settled::AtRest),
                pivots: &[(Col::World(2), 1)],
                left: 7,
                values: [(1, 1), (0, 1), (3, 1)],
                basic: [Col::World(1), Col::World(2), Col::Home(2)],
            },
        ],
    },
    // Of two artificial rows the lesser leaves.
    Case {
        homes: [Home::Artificial, Home::Artificial, Home::Artificial],
        worlds: &[[1, -2, 1], [1, 0, 0]],
        query: &[0, 1],
        limit: 9,
        stages: &[
            Stage {
                phase: Phase::One,
                end: End::Settled(Settled::Feasible),
                pivots: &[(Col::World(2), 0)],
                left: 8,
                values: [(1, 1), (0, 1), (0, 1)],
                basic: [Col::World(2), Col::Home(1), Col::Home(2)],
            },
            Stage {
                phase: Phase::Lower,
                end: End::Settled(Settled::AtRest),
                pivots: &[(Col::World(1), 1)],
                left: 7,
                values: [(1, 1), (0, 1), (0, 1)],
                basic: [Col::World(2), Col::World(1), Col::Home(2)],
            },
            Stage {
                phase: Phase::Upper,
                end: End::Settled(Settled::AtRest),
                pivots: &[],
                left: 7,
                values: [(1, 1), (0, 1), (0, 1)],
                basic: [Col::World(2), Col::World(1), Col::Home(2)],
            },
        ],
    },
    // The same for the greatest value.
    Case {
        homes: [Home::Artificial, Home::Artificial, Home::Artificial],
        worlds: &[[1, 0, 0], [1, -2, -1]],
        query: &[0, 1],
        limit: 9,
        stages: &[
            Stage {
                phase: Phase::One,
                end: End::Settled(Settled::Feasible),
                pivots: &[(Col::World(1), 0)],
                left: 8,
                values: [(1, 1), (0, 1), (0, 1)],
                basic: [Col::World(1), Col::Home(1), Col::Home(2)],
            },
            Stage {
                phase: Phase::Lower,
                end: End::Settled(Settled::AtRest),
                pivots: &[],
                left: 8,
                values: [(1, 1), (0, 1), (0, 1)],
                basic: [Col::World(1), Col::Home(1), Col::Home(2)],
            },
            Stage {
                phase: Phase::Upper,
                end: End::Settled(Settled::AtRest),
                pivots: &[(Col::World(2), 1)],
                left: 7,
                values: [(1, 1), (0, 1), (0, 1)],
                basic: [Col::World(1), Col::World(2), Col::Home(2)],
            },
        ],
    },
    // Six pivots.
    Case {
        homes: [Home::Artificial, Home::Slack, Home::Slack],
        worlds: &[[1, 2, 1], [1, 1, 3], [1, -3, -2]],
        query: &[0, 1, 0],
        limit: 9,
        stages: &[
            Stage {
                phase: Phase::One,
                end: End::Settled(Settled::Feasible),
                pivots: &[(Col::World(1), 1), (Col::World(2), 2), (Col::World(3), 0)],
                left: 6,
                values: [(5, 13), (7, 13), (1, 13)],
                basic: [Col::World(3), Col::World(1), Col::World(2)],
            },
            Stage {
                phase: Phase::Lower,
                end: End::Settled(Settled::AtRest),
                pivots: &[(Col::Home(2), 2)],
                left: 5,
                values: [(2, 5), (3, 5), (1, 5)],
                basic: [Col::World(3), Col::World(1), Col::Home(2)],
            },
            Stage {
                phase: Phase::Upper,
                end: End::Settled(Settled::AtRest),
                pivots: &[(Col::World(2), 2), (Col::Home(1), 1)],
                left: 3,
                values: [(3, 5), (7, 5), (2, 5)],
                basic: [Col::World(3), Col::Home(1), Col::World(2)],
            },
        ],
    },
    // The same with two pivots: none is left in phase one.
    Case {
        homes: [Home::Artificial, Home::Slack, Home::Slack],
        worlds: &[[1, 2, 1], [1, 1, 3], [1, -3, -2]],
        query: &[0, 1, 0],
        limit: 2,
        stages: &[Stage {
            phase: Phase::One,
            end: End::Settled(Settled::OutOfPivots),
            pivots: &[(Col::World(1), 1), (Col::World(2), 2)],
            left: 0,
            values: [(1, 1), (0, 1), (0, 1)],
            basic: [Col::Home(0), Col::World(1), Col::World(2)],
        }],
    },
    // With three: phase one ends, and none is left for the least value.
    Case {
        homes: [Home::Artificial, Home::Slack, Home::Slack],
        worlds: &[[1, 2, 1], [1, 1, 3], [1, -3, -2]],
        query: &[0, 1, 0],
        limit: 3,
        stages: &[
            Stage {
                phase: Phase::One,
                end: End::Settled(Settled::Feasible),
                pivots: &[(Col::World(1), 1), (Col::World(2), 2), (Col::World(3), 0)],
                left: 0,
                values: [(5, 13), (7, 13), (1, 13)],
                basic: [Col::World(3), Col::World(1), Col::World(2)],
            },
            Stage {
                phase: Phase::Lower,
                end: End::Settled(Settled::OutOfPivots),
                pivots: &[],
                left: 0,
                values: [(5, 13), (7, 13), (1, 13)],
                basic: [Col::World(3), Col::World(1), Col::World(2)],
            },
        ],
    },
    // With five: none is left for the greatest value.
    Case {
        homes: [Home::Artificial, Home::Slack, Home::Slack],
        worlds: &[[1, 2, 1], [1, 1, 3], [1, -3, -2]],
        query: &[0, 1, 0],
        limit: 5,
        stages: &[
            Stage {
                phase: Phase::One,
                end: End::Settled(Settled::Feasible),
                pivots: &[(Col::World(1), 1), (Col::World(2), 2), (Col::World(3), 0)],
                left: 2,
                values: [(5, 13), (7, 13), (1, 13)],
                basic: [Col::World(3), Col::World(1), Col::World(2)],
            },
            Stage {
                phase: Phase::Lower,
                end: End::Settled(Settled::AtRest),
                pivots: &[(Col::Home(2), 2)],
                left: 1,
                values: [(2, 5), (3, 5), (1, 5)],
                basic: [Col::World(3), Col::World(1), Col::Home(2)],
            },
            Stage {
                phase: Phase::Upper,
                end: End::Settled(Settled::OutOfPivots),
                pivots: &[(Col::World(2), 2)],
                left: 0,
                values: [(5, 13), (7, 13), (1, 13)],
                basic: [Col::World(3), Col::World(1), Col::World(2)],
            },
        ],
    },
];
