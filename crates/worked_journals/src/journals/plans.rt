//! The plans that are run.

use pipe_expr::{JoinCoalesce, JoinType};
use worked_builders::Operand::True;
use worked_builders::WrittenExpr::Just;
use worked_builders::WrittenNode::{Filter, Join, Scan, Sort, Union};
use worked_builders::{BY_K, INNER_ON_K, WrittenJoin, WrittenNode, WrittenSort};
use worked_columns::{INT, WrittenColumn};

/// A plan, and what it shows.
pub(crate) type Shown = (&'static str, &'static [WrittenNode]);

const NO_ROW: &[WrittenColumn] = &[("k", INT, &[])];

const ONE_TO_THREE: &[WrittenColumn] = &[("k", INT, &["1", "2", "3"])];

const TWO_AND_THREES: &[WrittenColumn] = &[("k", INT, &["2", "3", "3"])];

const ONE_TO_EIGHT: &[WrittenColumn] = &[("k", INT, &["1", "2", "3", "4", "5", "6", "7", "8"])];

/// The full join whose left side is built.
const FULL_LEFT: WrittenJoin = WrittenJoin {
    how: JoinType::Full,
    ..INNER_ON_K
};

/// The full join whose right side is built, since the left one is larger.
const FULL_RIGHT: WrittenJoin = WrittenJoin {
    how: JoinType::Full,
    rows_left: (Some(2), 0),
    rows_right: (Some(1), 0),
    ..INNER_ON_K
};

/// The full join whose right side is built, with one column for both keys.
const COALESCED: WrittenJoin = WrittenJoin {
    coalesce: JoinCoalesce::CoalesceColumns,
    ..FULL_RIGHT
};

/// The semi join whose left side is built.
const SEMI_LEFT: WrittenJoin = WrittenJoin {
    how: JoinType::Semi,
    ..INNER_ON_K
};

/// The anti join whose left side is built.
const ANTI_LEFT: WrittenJoin = WrittenJoin {
    how: JoinType::Anti,
    ..INNER_ON_K
};

/// A scan of eight rows.
pub(crate) const EIGHT: &[WrittenNode] = &[Scan(ONE_TO_EIGHT)];

/// A full join of no left row with eight right rows, whose left side is built.
pub(crate) const EIGHT_JOINED: &[WrittenNode] = &[
    Scan(NO_ROW),
    Scan(ONE_TO_EIGHT),
    Join(0, 1, FULL_LEFT),
];

/// All plans whose journals are told.
pub(crate) const PLANS: &[Shown] = &[
    ("a scan of eight rows", EIGHT),
    ("a scan without a row", &[Scan(NO_ROW)]),
    (
        "a join in a union, sorted",
        &[
            Scan(ONE_TO_THREE),
            Scan(TWO_AND_THREES),
            Join(0, 1, INNER_ON_K),
            Scan(&[("k", INT, &["0"])]),
            Union(&[2, 3]),
            Sort(4, BY_K),
        ],
    ),
    (
        "a full join over a union, its right side built, sorted",
        &[
            Scan(&[("k", INT, &["1"])]),
            Scan(&[("k", INT, &["2"])]),
            Filter(1, Just(True)),
            Union(&[0, 2]),
            Scan(&[
                ("k", INT, &["1", "2", "3"]),
                ("z", INT, &["10", "20", "30"]),
            ]),
            Join(3, 4, FULL_RIGHT),
            Sort(5, WrittenSort { by: &["z"], ..BY_K }),
        ],
    ),
    (
        "two full joins one above the other, their keys coalesced, sorted",
        &[
            Scan(&[("k", INT, &["1"])]),
            Scan(&[("k", INT, &["1", "3"])]),
            Join(0, 1, COALESCED),
            Scan(&[("k", INT, &["3", "4"])]),
            Join(2, 3, COALESCED),
            Sort(4, BY_K),
        ],
    ),
    (
        "a union of scans",
        &[Scan(ONE_TO_THREE), Scan(TWO_AND_THREES), Union(&[0, 1])],
    ),
    (
        "a full join over a sort, its right side built",
        &[
            Scan(&[("k", INT, &["2", "1"])]),
            Sort(0, BY_K),
            Scan(&[("k", INT, &["1", "3"])]),
            Join(1, 2, FULL_RIGHT),
        ],
    ),
    (
        "a full join above a semi join whose left side is built",
        &[
            Scan(ONE_TO_THREE),
            Scan(TWO_AND_THREES),
            Join(0, 1, SEMI_LEFT),
            Scan(&[("k", INT, &["3", "4"])]),
            Join(2, 3, FULL_RIGHT),
        ],
    ),
    (
        "a full join of no left row, its right side built, sorted",
        &[
            Scan(NO_ROW),
            Scan(&[("k", INT, &["5", "5"])]),
            Join(0, 1, FULL_RIGHT),
            Sort(
                2,
                WrittenSort {
                    by: &["k_right"],
                    ..BY_K
                },
            ),
        ],
    ),
    (
        "a full join whose left side is built",
        &[
            Scan(ONE_TO_THREE),
            Scan(TWO_AND_THREES),
            Join(0, 1, FULL_LEFT),
        ],
    ),
    (
        "a semi join whose left side is built",
        &[
            Scan(ONE_TO_THREE),
            Scan(TWO_AND_THREES),
            Join(0, 1, SEMI_LEFT),
        ],
    ),
    (
        "an anti join whose left side is built",
        &[
            Scan(ONE_TO_THREE),
            Scan(TWO_AND_THREES),
            Join(0, 1, ANTI_LEFT),
        ],
    ),
];
