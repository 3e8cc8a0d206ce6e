//! Systems of five rows.

use super::case::{Case, End, Stage};
use ps_frac::Op;
use ps_simplex::Phase;
use ps_table::{Col, Home, Place};

pub(crate) const FIVE_ROWS: [Case<5>; 2] = [
    // A product of a world's price is too wide, and the world improves.
    Case {
        homes: [
            Home::Artificial,
            Home::Slack,
            Home::Artificial,
            Home::Artificial,
            Home::Artificial,
        ],
        worlds: &[
            [
                1,
                1,
                9223372036854775807,
                9223372036854775807,
                9223372036854775807,
            ],
            [
                1,
                -9223372036854775808,
                9223372036854775807,
                9223372036854775807,
                9223372036854775807,
            ],
        ],
        query: &[0, 0],
        limit: 9,
        stages: &[Stage {
            phase: Phase::One,
            end: End::Wide {
                place: Place::PriceTimes { world: 2, home: 1 },
                op: Op::Mul,
                left: (-27670116110564327422, 1),
                right: (-9223372036854775808, 1),
            },
            pivots: &[(Col::World(1), 1)],
            left: 8,
            values: [(1, 1), (0, 1), (0, 1), (0, 1), (0, 1)],
            basic: [
                Col::Home(0),
                Col::World(1),
                Col::Home(2),
                Col::Home(3),
                Col::Home(4),
            ],
        }],
    },
    // The same where no column improves.
    Case {
        homes: [
            Home::Artificial,
            Home::Slack,
            Home::Artificial,
            Home::Artificial,
            Home::Artificial,
        ],
        worlds: &[
            [
                1,
                1,
                9223372036854775807,
                9223372036854775807,
                9223372036854775807,
            ],
            [
                1,
                9223372036854775807,
                -9223372036854775807,
                -9223372036854775807,
                -9223372036854775807,
            ],
        ],
        query: &[0, 0],
        limit: 9,
        stages: &[Stage {
            phase: Phase::One,
            end: End::Wide {
                place: Place::PriceTimes { world: 2, home: 1 },
                op: Op::Mul,
                left: (-27670116110564327422, 1),
                right: (9223372036854775807, 1),
            },
            pivots: &[(Col::World(1), 1)],
            left: 8,
            values: [(1, 1), (0, 1), (0, 1), (0, 1), (0, 1)],
            basic: [
                Col::Home(0),
                Col::World(1),
                Col::Home(2),
                Col::Home(3),
                Col::Home(4),
            ],
        }],
    },
];
