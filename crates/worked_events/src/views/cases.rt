//! The cases.

use crate::views::played::{Settings, played};
use pipe_expr::{JoinCoalesce, JoinType};
use std::alloc::{AllocError, Global};
use worked_columns::INT;

const FULL: Settings = Settings {
    how: JoinType::Full,
    join_nulls: false,
    coalesce: JoinCoalesce::KeepColumns,
    limit: 100,
};

const LEFT: Settings = Settings {
    how: JoinType::Left,
    join_nulls: false,
    coalesce: JoinCoalesce::JoinSpecific,
    limit: 100,
};

const INNER: Settings = Settings {
    how: JoinType::Inner,
    join_nulls: false,
    coalesce: JoinCoalesce::KeepColumns,
    limit: 100,
};

/// A padded right row gets its match, and then goes.
pub fn first_match(alloc: Global) -> Result<String, AllocError> {
    played(
        alloc,
        "full: first match",
        &[("k", INT, &["1"])],
        &[("k", INT, &["2"])],
        FULL,
        &["L+ 2", "R- 2"],
    )
}

/// Null keys pad, and a row that isn't there.
pub fn null_and_absent(alloc: Global) -> Result<String, AllocError> {
    played(
        alloc,
        "left: absent",
        &[("k", INT, &["1"])],
        &[("k", INT, &[]), ("y", INT, &[])],
        LEFT,
        &["R+ 1 -", "L- 9"],
    )
}

/// The limit, met and passed by one.
pub fn limit_met(alloc: Global) -> Result<String, AllocError> {
    let settings = Settings { limit: 2, ..LEFT };
    played(
        alloc,
        "left: limit 2",
        &[("k", INT, &["1", "2"])],
        &[("k", INT, &[])],
        settings,
        &["L+ 3", "R+ 1", "R+ 1", "R+ 2"],
    )
}

/// The last match of a right row and of a left row goes.
pub fn last_match(alloc: Global) -> Result<String, AllocError> {
    played(
        alloc,
        "full: last match",
        &[("k", INT, &["5", "5"]), ("x", INT, &["1", "2"])],
        &[("k", INT, &["5", "5"]), ("y", INT, &["7", "8"])],
        FULL,
        &["L- 5 1", "L- 5 2", "L+ 5 3", "R- 5 7", "R- 5 8"],
    )
}

/// Equal rows, put in twice and taken out once.
pub fn equal_rows(alloc: Global) -> Result<String, AllocError> {
    played(
        alloc,
        "inner: equal rows",
        &[("k", INT, &["1"]), ("x", INT, &["4"])],
        &[("k", INT, &[])],
        INNER,
        &[
            "R+ 1", "R+ 1", "R- 1", "L+ 1 4", "L- 1 4", "L- 1 4", "L- 1 4",
        ],
    )
}

/// Null keys, which join only where nulls do.
pub fn null_keys(alloc: Global, join_nulls: bool) -> Result<String, AllocError> {
    let settings = Settings { join_nulls, ..FULL };
    played(
        alloc,
        if join_nulls {
            "full: nulls join"
        } else {
            "full: nulls don't join"
        },
        &[("k", INT, &["-"])],
        &[("k", INT, &["-"]), ("y", INT, &["6"])],
        settings,
        &["L+ -", "R+ - -", "R- - 6", "L- -"],
    )
}

/// A join that has more rows than the limit.
pub fn join_too_long(alloc: Global) -> Result<String, AllocError> {
    let settings = Settings { limit: 3, ..INNER };
    played(
        alloc,
        "inner: limit 3",
        &[("k", INT, &["1", "1"])],
        &[("k", INT, &["1", "1"])],
        settings,
        &[],
    )
}

/// Tables that have more rows than the limit: both, and then the right one alone.
pub fn table_too_long(alloc: Global, left: &[&str]) -> Result<String, AllocError> {
    let settings = Settings { limit: 1, ..INNER };
    played(
        alloc,
        "inner: limit 1",
        &[("k", INT, left)],
        &[("k", INT, &["3", "4"])],
        settings,
        &[],
    )
}

/// Tables that may have no row.
pub fn no_row(alloc: Global) -> Result<String, AllocError> {
    let settings = Settings { limit: 0, ..FULL };
    played(
        alloc,
        "full: limit 0",
        &[("k", INT, &[])],
        &[("k", INT, &[])],
        settings,
        &["L+ 1", "R+ 1"],
    )
}

/// A join of another kind.
pub fn other_kind(alloc: Global) -> Result<String, AllocError> {
    let semi = Settings {
        how: JoinType::Semi,
        ..INNER
    };
    played(
        alloc,
        "semi",
        &[("k", INT, &["1"])],
        &[("k", INT, &["1"])],
        semi,
        &[],
    )
}

/// A join of another kind whose left table has no key: the fault of the plan is told.
pub fn no_key(alloc: Global) -> Result<String, AllocError> {
    let semi = Settings {
        how: JoinType::Semi,
        ..INNER
    };
    played(
        alloc,
        "semi: no key",
        &[("x", INT, &["1"])],
        &[("k", INT, &["1"])],
        semi,
        &[],
    )
}
