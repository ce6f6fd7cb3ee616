//! The plans whose root's operator is worked out.

use crate::operators::planned::planned;
use std::alloc::{AllocError, Global};
use worked_builders::WrittenNode::{HStack, Scan, Unpivot};
use worked_builders::{Operand, WrittenExpr, WrittenNode};
use worked_columns::{INT, WrittenColumn};

const TWO: &[WrittenColumn] = &[("k", INT, &["1", "-"]), ("m", INT, &["3", "4"])];

const SUM: WrittenExpr = WrittenExpr::Add(Operand::Col("k"), Operand::Col("m"));

const EXTENSION: &[WrittenNode] = &[Scan(TWO), HStack(0, &[("k", SUM), ("n", SUM)])];

const UNPIVOT: &[WrittenNode] = &[
    Scan(TWO),
    Unpivot {
        input: 0,
        on: &["k", "m"],
        index: &[],
    },
];

const GREATEST: &[WrittenColumn] = &[("k", INT, &["9223372036854775807"])];

const NEXT: WrittenExpr = WrittenExpr::Add(Operand::Col("k"), Operand::Int(1));

const PAST_GREATEST: &[WrittenNode] = &[Scan(GREATEST), HStack(0, &[("n", NEXT)])];

const THREE: &[WrittenColumn] = &[
    ("id", INT, &["1", "2"]),
    ("a", INT, &["5", "-"]),
    ("b", INT, &["7", "8"]),
];

const UNPIVOT_BESIDE: &[WrittenNode] = &[
    Scan(THREE),
    Unpivot {
        input: 0,
        on: &["a", "b"],
        index: &["id"],
    },
];

/// The lines of all.
pub(crate) fn lines(alloc: Global) -> Result<String, AllocError> {
    let mut lines = planned(alloc, "k and n become k + m", EXTENSION)?;
    lines.push_str(planned(alloc, "k and m unpivoted", UNPIVOT)?.as_str())?;
    lines.push_str(planned(alloc, "n is k + 1, past the greatest", PAST_GREATEST)?.as_str())?;
    lines.push_str(planned(alloc, "a and b unpivoted beside id", UNPIVOT_BESIDE)?.as_str())?;
    Ok(lines)
}
