//! Plans of chance: a few nodes drawn from a list, and a root.

use crate::alike::is_told_alike;
use pipe_expr::{JoinCoalesce, JoinType};
use std::alloc::{AllocError, Global};
use worked_builders::Operand::{Col, Int, Misfit, True};
use worked_builders::WrittenExpr::{Add, And, Eq, IsNull, Just};
use worked_builders::WrittenNode::{
    Filter, HStack, Join, Rename, Scan, ScanAgain, ScanOnly, Select, SimpleProjection, Sort, Union,
    Unpivot,
};
use worked_builders::{BY_K, INNER_ON_K, WrittenJoin, WrittenNode, WrittenSort, plan_of};
use worked_columns::{INT, TEXT, WrittenColumn};

const K: &[WrittenColumn] = &[("k", INT, &["1"])];

const K_X: &[WrittenColumn] = &[("k", INT, &["1"]), ("x", TEXT, &["p"])];

const LEFT_ON_K: WrittenJoin = WrittenJoin {
    how: JoinType::Left,
    coalesce: JoinCoalesce::KeepColumns,
    ..INNER_ON_K
};

const FULL_ON_SUM: WrittenJoin = WrittenJoin {
    left_on: &[Add(Col("k"), Int(1))],
    how: JoinType::Full,
    coalesce: JoinCoalesce::CoalesceColumns,
    ..INNER_ON_K
};

const ANTI_ON_K: WrittenJoin = WrittenJoin {
    how: JoinType::Anti,
    ..INNER_ON_K
};

const CROSS: WrittenJoin = WrittenJoin {
    left_on: &[],
    right_on: &[],
    how: JoinType::Cross,
    ..INNER_ON_K
};

const SEMI_ON_TEXT: WrittenJoin = WrittenJoin {
    left_on: &[Just(Col("x"))],
    how: JoinType::Semi,
    ..INNER_ON_K
};

/// What is drawn from.
const NODES: &[WrittenNode] = &[
    Scan(K),
    Scan(K_X),
    ScanOnly(K_X, &["x", "k"]),
    ScanOnly(K_X, &["z"]),
    ScanAgain(0),
    ScanAgain(2),
    Filter(0, Just(True)),
    Filter(1, Eq(Col("k"), Int(1))),
    Filter(2, IsNull(Col("x"))),
    Filter(0, And(Col("k"), True)),
    SimpleProjection(0, &["k"]),
    SimpleProjection(1, &["x", "k"]),
    SimpleProjection(2, &["k", "k"]),
    SimpleProjection(1, &[]),
    Select(0, &[("a", Add(Col("k"), Int(1))), ("k", Just(Col("k")))]),
    Select(2, &[("a", Just(Col("k"))), ("a", Just(Int(1)))]),
    Select(1, &[("a", Just(Misfit))]),
    HStack(0, &[("n", Just(Int(1)))]),
    HStack(1, &[("k", Just(Col("x"))), ("n", Just(Col("k")))]),
    HStack(2, &[("n", Just(Int(1))), ("n", Just(Int(2)))]),
    HStack(0, &[]),
    Unpivot {
        input: 0,
        on: &["k"],
        index: &[],
    },
    Unpivot {
        input: 1,
        on: &["k", "x"],
        index: &["k"],
    },
    Rename(0, &[("k", "a")]),
    Rename(1, &[("k", "x"), ("x", "k")]),
    Rename(2, &[("k", "x")]),
    Union(&[0, 1]),
    Union(&[1, 2]),
    Union(&[2, 2]),
    Union(&[]),
    Join(0, 1, INNER_ON_K),
    Join(1, 2, LEFT_ON_K),
    Join(0, 2, FULL_ON_SUM),
    Join(1, 0, ANTI_ON_K),
    Join(2, 3, CROSS),
    Join(0, 1, SEMI_ON_TEXT),
    Sort(0, BY_K),
    Sort(
        1,
        WrittenSort {
            by: &["k", "x"],
            ..BY_K
        },
    ),
    Sort(
        2,
        WrittenSort {
            by: &["k", "k"],
            ..BY_K
        },
    ),
    Sort(
        3,
        WrittenSort {
            descending: &[true, false],
            ..BY_K
        },
    ),
];

/// Pseudorandom numbers (the multiplier and the increment of Knuth's MMIX).
#[derive(Drop)]
struct Chance {
    state: u64,
}

impl Chance {
    /// A number below a bound that isn't 0.
    fn below(&mut self, bound: u64) -> u64 {
        self.state = self
            .state
            .wrapping_mul(6364136223846793005)
            .wrapping_add(1442695040888963407);
        (self.state >> 33).checked_rem(bound).unwrap_or(0)
    }
}

/// Some nodes, one after another.
fn draw(alloc: Global, chance: &mut Chance) -> Result<Vec<WrittenNode>, AllocError> {
    let count = chance.below(6);
    let mut drawn = Vec::new(alloc);
    drawn.push(Scan(K_X))?;
    for _ in 0..count {
        let place = chance.below(NODES.len() as u64) as usize;
        if let Some(node) = NODES.get(place) {
            drawn.push(*node)?;
        }
    }
    Ok(drawn)
}

/// Whether a plan of chance is told alike.
fn is_one_alike(alloc: Global, chance: &mut Chance) -> Result<bool, AllocError> {
    let nodes = draw(alloc, chance)?;
    let built = plan_of(alloc, nodes.as_slice())?;
    let back = chance.below(3);
    let root = if back == 2 { 1 } else { built.root };
    if built.arena.nodes.len() < 4294967296 {
        is_told_alike(alloc, &built.arena, root)
    } else {
        Ok(false)
    }
}

/// Appends how many plans of chance are told alike.
pub(crate) fn tell(alloc: Global, answers: &mut String) -> Result<(), AllocError> {
    let mut chance = Chance { state: 7 };
    let mut alike: u32 = 0;
    for _ in 0..5000 {
        if is_one_alike(alloc, &mut chance)? {
            alike = alike.saturating_add(1);
        }
    }
    answers.push_str(format!(in alloc; "# 5000 plans of chance\n{alike} told alike\n")?.as_str())
}
