//! Systems of three rows with a number that is too large.

use super::case::{Case, End, Stage};
use crate::Settled;
use ps_frac::Op;
use ps_simplex::Phase;
use ps_table::{Col, Home, Place, TableCol};

pub(crate) const THREE_ROWS_WIDE: [Case<3>; 7] = [
    // In a world's column, which isn't kept, a difference would be too wide: no number is.
    Case {
        homes: [Home::Artificial, Home::Artificial, Home::Slack],
        worlds: &[
            [1, 17044500503549, -6145081616091],
            [1, -9728764368151, -12312634273992],
            [1, 15034132573355, -13879260160213],
        ],
        query: &[1, 1, 1],
        limit: 9,
        stages: &[Stage {
            phase: Phase::One,
            end: End::Settled(Settled::Feasible),
            pivots: &[(Col::World(1), 1), (Col::World(2), 0)],
            left: 7,
            values: [
                (17044500503549, 26773264871700),
                (9728764368151, 26773264871700),
                (89882250716359067867971783, 8924421623900),
            ],
            basic: [Col::World(2), Col::World(1), Col::Home(2)],
        }],
    },
    // A product of the second pivot is too wide.
    Case {
        homes: [Home::Artificial, Home::Artificial, Home::Artificial],
        worlds: &[
            [1, 9223372036854775807, 1],
            [1, 2305843009213693952, 1099511627776],
        ],
        query: &[1, 1],
        limit: 9,
        stages: &[Stage {
            phase: Phase::One,
            end: End::Wide {
                place: Place::Times {
                    row: 0,
                    col: TableCol::Of(Col::Home(1)),
                },
                op: Op::Mul,
                left: (6917529027641081855, 9223372036854775807),
                right: (-1, 10141204801823529367864900321280),
            },
            pivots: &[(Col::World(1), 1)],
            left: 8,
            values: [(1, 1), (0, 1), (0, 1)],
            basic: [Col::Home(0), Col::World(1), Col::Home(2)],
        }],
    },
    // A product of a pivot for the least value is too wide.
    Case {
        homes: [Home::Artificial, Home::Slack, Home::Artificial],
        worlds: &[
            [1, -4449699016603, -8485869709519],
            [1, 12362963957229, -5261459060521],
            [1, -13653369566989, -5648677163926],
            [1, 12039237847974, 14212085263314],
        ],
        query: &[1, 1, 1, 0],
        limit: 9,
        stages: &[
            Stage {
                phase: Phase::One,
                end: End::Settled(Settled::Feasible),
                pivots: &[(Col::World(4), 1), (Col::World(3), 2), (Col::Home(1), 0)],
                left: 6,
                values: [
                    (63018542257329941181077811, 9930381213620),
                    (2824338581963, 9930381213620),
                    (7106042631657, 9930381213620),
                ],
                basic: [Col::Home(1), Col::World(4), Col::World(3)],
            },
            Stage {
                phase: Phase::Lower,
                end: End::Wide {
                    place: Place::Times {
                        row: 2,
                        col: TableCol::Of(Col::Home(2)),
                    },
                    op: Op::Mul,
                    left: (3242564996119, 2837251775320),
                    right: (-25692607414963, 255686788494382021326822699),
                },
                pivots: &[],
                left: 6,
                values: [
                    (63018542257329941181077811, 9930381213620),
                    (2824338581963, 9930381213620),
                    (7106042631657, 9930381213620),
                ],
                basic: [Col::Home(1), Col::World(4), Col::World(3)],
            },
        ],
    },
    // A product of the fourth pivot for the greatest value is too wide.
    Case {
        homes: [Home::Artificial, Home::Slack, Home::Slack],
        worlds: &[
            [1, -6850274007425, 4854227964723],
            [1, 8800351720060, -11685467669297],
            [1, -11194749658880, 16877076001596],
            [1, -10931033891677, -7124177471256],
        ],
        query: &[0, 1, 0, 0],
        limit: 9,
        stages: &[
            Stage {
                phase: Phase::One,
                end: End::Settled(Settled::Feasible),
                pivots: &[(Col::World(1), 2), (Col::World(2), 0)],
                left: 7,
                values: [
                    (4854227964723, 16539695634020),
                    (7465948404135405754217369, 3307939126804),
                    (11685467669297, 16539695634020),
                ],
                basic: [Col::World(2), Col::Home(1), Col::World(1)],
            },
            Stage {
                phase: Phase::Lower,
                end: End::Settled(Settled::AtRest),
                pivots: &[(Col::World(4), 0)],
                left: 6,
                values: [
                    (539358662747, 1330933937331),
                    (11318255350660124403042919, 1330933937331),
                    (791575274584, 1330933937331),
                ],
                basic: [Col::World(4), Col::Home(1), Col::World(1)],
            },
            Stage {
                phase: Phase::Upper,
                end: End::Wide {
                    place: Place::Times {
                        row: 0,
                        col: TableCol::Right,
                    },
                    op: Op::Mul,
                    left: (-33700748907732076076241147, 38769596613016880323018435),
                    right: (17708319615512846505808400, 472375103293872749619414601),
                },
                pivots: &[(Col::World(2), 0), (Col::Home(2), 1), (Col::World(3), 1)],
                left: 3,
                values: [
                    (4084715213524051046144004, 7753919322603376064603687),
                    (7465948404135405754217369, 23261757967810128193811061),
                    (3541663923102569301161680, 23261757967810128193811061),
                ],
                basic: [Col::World(2), Col::World(3), Col::World(1)],
            },
        ],
    },
    // A sum of the column that enters is too wide.
    Case {
        homes: [Home::Artificial, Home::Artificial, Home::Artificial],
        worlds: &[
            [1, -2, -9223372036854775808],
            [1, 3, -9223372036854775808],
            [1, 9223372036854775807, -9223372036854775808],
            [1, -1, -1],
            [1, 0, 9223372036854775807],
        ],
        query: &[0, 0, 1, 0, 0],
        limit: 9,
        stages: &[
            Stage {
                phase: Phase::One,
                end: End::Settled(Settled::Feasible),
                pivots: &[(Col::World(5), 2), (Col::World(1), 0), (Col::World(2), 1)],
                left: 6,
                values: [
                    (9223372036854775807, 30744573456182586025),
                    (18446744073709551614, 92233720368547758075),
                    (9223372036854775808, 18446744073709551615),
                ],
                basic: [Col::World(1), Col::World(2), Col::World(5)],
            },
            Stage {
                phase: Phase::Lower,
                end: End::Settled(Settled::AtRest),
                pivots: &[],
                left: 6,
                values: [
                    (9223372036854775807, 30744573456182586025),
                    (18446744073709551614, 92233720368547758075),
                    (9223372036854775808, 18446744073709551615),
                ],
                basic: [Col::World(1), Col::World(2), Col::World(5)],
            },
            Stage {
                phase: Phase::Upper,
                end: End::Wide {
                    place: Place::ColumnPlus {
                        world: 3,
                        row: 1,
                        home: 2,
                    },
                    op: Op::Add,
                    left: (
                        170141183460469231722463931679029329919,
                        92233720368547758075,
                    ),
                    right: (18446744073709551616, 92233720368547758075),
                },
                pivots: &[],
                left: 6,
                values: [
                    (9223372036854775807, 30744573456182586025),
                    (18446744073709551614, 92233720368547758075),
                    (9223372036854775808, 18446744073709551615),
                ],
                basic: [Col::World(1), Col::World(2), Col::World(5)],
            },
        ],
    },
    // The same with no pivot left: the column isn't made.
    Case {
        homes: [Home::Artificial, Home::Artificial, Home::Artificial],
        worlds: &[
            [1, -2, -9223372036854775808],
            [1, 3, -9223372036854775808],
            [1, 9223372036854775807, -9223372036854775808],
            [1, -1, -1],
            [1, 0, 9223372036854775807],
        ],
        query: &[0, 0, 1, 0, 0],
        limit: 3,
        stages: &[
            Stage {
                phase: Phase::One,
                end: End::Settled(Settled::Feasible),
                pivots: &[(Col::World(5), 2), (Col::World(1), 0), (Col::World(2), 1)],
                left: 0,
                values: [
                    (9223372036854775807, 30744573456182586025),
                    (18446744073709551614, 92233720368547758075),
                    (9223372036854775808, 18446744073709551615),
                ],
                basic: [Col::World(1), Col::World(2), Col::World(5)],
            },
            Stage {
                phase: Phase::Lower,
                end: End::Settled(Settled::AtRest),
                pivots: &[],
                left: 0,
                values: [
                    (9223372036854775807, 30744573456182586025),
                    (18446744073709551614, 92233720368547758075),
                    (9223372036854775808, 18446744073709551615),
                ],
                basic: [Col::World(1), Col::World(2), Col::World(5)],
            },
            Stage {
                phase: Phase::Upper,
                end: End::Settled(Settled::OutOfPivots),
                pivots: &[],
                left: 0,
                values: [
                    (9223372036854775807, 30744573456182586025),
                    (18446744073709551614, 92233720368547758075),
                    (9223372036854775808, 18446744073709551615),
                ],
                basic: [Col::World(1), Col::World(2), Col::World(5)],
            },
        ],
    },
    // A quotient of the second pivot for the least value is too wide.
    Case {
        homes: [Home::Artificial, Home::Slack, Home::Artificial],
        worlds: &[
            [1, -1099511627776, -9223372036854775808],
            [1, -9223372036854775808, 0],
            [1, 9223372036854775807, 2],
        ],
        query: &[1, 1, 0],
        limit: 9,
        stages: &[
            Stage {
                phase: Phase::One,
                end: End::Settled(Settled::Feasible),
                pivots: &[(Col::World(2), 0)],
                left: 8,
                values: [(1, 1), (9223372036854775808, 1), (0, 1)],
                basic: [Col::World(2), Col::Home(1), Col::Home(2)],
            },
            Stage {
                phase: Phase::Lower,
                end: End::Wide {
                    place: Place::Scale {
                        col: TableCol::Of(Col::Home(2)),
                    },
                    op: Op::Div,
                    left: (-18446744073709551615, 2),
                    right: (85070591730234615870455336776857812992, 1),
                },
                pivots: &[(Col::World(3), 2)],
                left: 7,
                values: [(1, 1), (9223372036854775808, 1), (0, 1)],
                basic: [Col::World(2), Col::Home(1), Col::World(3)],
            },
        ],
    },
];
