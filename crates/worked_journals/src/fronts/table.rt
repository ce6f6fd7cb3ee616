//! The plans whose pipelines are called, in the order in which they are told.

use crate::fronts::told::tell_calls;
use std::alloc::{AllocError, Global};
use std::thread::Threads;
use worked_builders::Operand::{Col, Int};
use worked_builders::WrittenExpr::Gt;
use worked_builders::WrittenNode::{Filter, Join, Scan, Sort, Union};
use worked_builders::{BY_K, INNER_ON_K, WrittenExpr, WrittenNode};
use worked_columns::{INT, WrittenColumn};

/// A plan, and what it shows.
type Shown = (&'static str, &'static [WrittenNode]);

const LOW: &[WrittenColumn] = &[("k", INT, &["2", "1"])];

const HIGH: &[WrittenColumn] = &[("k", INT, &["3", "2"])];

const ABOVE_1: WrittenExpr = Gt(Col("k"), Int(1));

/// All plans whose pipelines are called.
const PLANS: &[Shown] = &[
    ("a scan under a sort: one call", &[Scan(LOW), Sort(0, BY_K)]),
    (
        "a join under a sort: the built side, then the other",
        &[Scan(LOW), Scan(HIGH), Join(0, 1, INNER_ON_K), Sort(2, BY_K)],
    ),
    (
        "a union of branches under a sort: both are one front part",
        &[
            Scan(LOW),
            Filter(0, ABOVE_1),
            Scan(HIGH),
            Filter(2, ABOVE_1),
            Union(&[1, 3]),
            Sort(4, BY_K),
        ],
    ),
    (
        "a join of a join and a scan under a sort: a call a table, then the last",
        &[
            Scan(LOW),
            Scan(HIGH),
            Join(0, 1, INNER_ON_K),
            Scan(HIGH),
            Join(2, 3, INNER_ON_K),
            Sort(4, BY_K),
        ],
    ),
];

/// What each plan shows, its calls and its rows.
pub(crate) fn answers<R: Threads + Sync>(rt: &R, alloc: Global) -> Result<String, AllocError> {
    let mut answers = String::new(alloc);
    for (shows, nodes) in PLANS {
        tell_calls(rt, alloc, &mut answers, shows, nodes)?;
    }
    Ok(answers)
}
