//! Plans that no job spells, since they have a literal that isn't of its type.

use worked_builders::Operand::{Col, Misfit};
use worked_builders::WrittenExpr::{Add, Eq, IsNull, Just};
use worked_builders::WrittenNode::{Filter, HStack, Join, Scan, Select};
use worked_builders::{INNER_ON_K, WrittenJoin, WrittenNode};
use worked_columns::{INT, WrittenColumn};

const K: &[WrittenColumn] = &[("k", INT, &["1"])];

/// A key on the right without a type.
const ON_NO_TYPE: WrittenJoin = WrittenJoin {
    right_on: &[Add(Col("k"), Misfit)],
    ..INNER_ON_K
};

const ADDED: &[WrittenNode] = &[Scan(K), HStack(0, &[("n", Just(Misfit))])];

const ADDED_TWICE: &[WrittenNode] = &[
    Scan(K),
    HStack(0, &[("n", Just(Col("k"))), ("n", Just(Misfit))]),
];

const CHOSEN_TWICE: &[WrittenNode] = &[
    Scan(K),
    Select(0, &[("n", Just(Col("k"))), ("n", Just(Misfit))]),
];

const COMPARED: &[WrittenNode] = &[Scan(K), Filter(0, Eq(Col("k"), Misfit))];

const TESTED: &[WrittenNode] = &[Scan(K), Filter(0, IsNull(Misfit))];

const KEY: &[WrittenNode] = &[Scan(K), Scan(K), Join(0, 1, ON_NO_TYPE)];

/// The nodes of the plan that a line names, none where it names none.
pub(crate) fn misfit_of(line: &str) -> &'static [WrittenNode] {
    match line {
        "misfit added" => ADDED,
        "misfit added twice" => ADDED_TWICE,
        "misfit chosen twice" => CHOSEN_TWICE,
        "misfit compared" => COMPARED,
        "misfit tested" => TESTED,
        "misfit key" => KEY,
        _ => &[],
    }
}
