//! Types, and why an expression has none: a name that is unknown comes before a type that doesn't fit.

use pipe_schema::DataType;
use worked_builders::Operand::{Col, Int, Misfit, Value};
use worked_builders::WrittenExpr::{self, Add, And, Eq, IsNull, Just, Lt, Mul, Not, Or};
use worked_columns::{INT, TEXT, WrittenColumn};

/// Over these columns the types alone are told.
pub(crate) const COLUMNS: &[WrittenColumn] = &[
    ("a", DataType::Int32, &[]),
    ("k", INT, &[]),
    ("t", TEXT, &[]),
    ("p", DataType::Boolean, &[]),
    ("w", DataType::Int128, &[]),
];

pub(crate) const EXPRS: &[(&str, WrittenExpr)] = &[
    ("column", Just(Col("t"))),
    ("null", Just(Value(DataType::UInt32, "-"))),
    ("number", Just(Value(DataType::UInt32, "7"))),
    ("literal of another type", Just(Misfit)),
    ("sum with a literal of another type", Add(Col("k"), Misfit)),
    ("sum", Add(Col("k"), Int(1))),
    (
        "sum of 128 bits",
        Add(Col("w"), Value(DataType::Int128, "1")),
    ),
    ("sum of two widths", Add(Col("a"), Col("k"))),
    ("sum of 64 and 128 bits", Add(Col("k"), Col("w"))),
    ("sum with a text", Add(Col("k"), Value(TEXT, "a"))),
    ("product of texts", Mul(Col("t"), Col("t"))),
    ("sum of truth values", Add(Col("p"), Col("p"))),
    ("comparison of texts", Lt(Col("t"), Value(TEXT, "-"))),
    ("comparison of two widths", Eq(Col("a"), Col("k"))),
    ("and of a number", And(Col("p"), Col("k"))),
    ("or of a number", Or(Col("k"), Col("p"))),
    ("not of a number", Not(Col("k"))),
    ("test for null", IsNull(Col("k"))),
    ("unknown on the right", Add(Col("k"), Col("y"))),
    ("unknown on both sides", Add(Col("x"), Col("y"))),
    ("unknown beside a misfit", And(Misfit, Col("y"))),
];
