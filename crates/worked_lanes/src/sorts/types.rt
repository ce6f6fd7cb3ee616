//! A sort by a column of each type.

use crate::sorts::lanes::{by_first, key, sorted_columns};
use crate::told::line;
use pipe_schema::DataType;
use std::alloc::{AllocError, Global};
use worked_columns::{TEXT, WrittenColumn};

const INT32: &[WrittenColumn] = &[(
    "k",
    DataType::Int32,
    &["3", "-2147483648", "-", "2147483647", "-1"],
)];

const INT64: &[WrittenColumn] = &[(
    "k",
    DataType::Int64,
    &[
        "9223372036854775807",
        "0",
        "-9223372036854775808",
        "-",
        "-1",
    ],
)];

const UINT32: &[WrittenColumn] = &[("k", DataType::UInt32, &["4294967295", "-", "0", "7"])];

const UINT64: &[WrittenColumn] = &[(
    "k",
    DataType::UInt64,
    &["18446744073709551615", "-", "9223372036854775808", "1"],
)];

const BOOLEAN: &[WrittenColumn] = &[("k", DataType::Boolean, &["true", "false", "-", "true"])];

const STRING: &[WrittenColumn] = &[("k", TEXT, &["b", "ab", "-", "a", "é"])];

const BINARY: &[WrittenColumn] = &[("k", DataType::Binary, &["ff", "00ff", "-", "00", "0000"])];

const INT128: &[WrittenColumn] = &[(
    "k",
    DataType::Int128,
    &["18446744073709551616", "-", "-18446744073709551617", "5"],
)];

/// A sort by the one column, ascending and descending.
fn both_ways(
    alloc: Global,
    answers: &mut String,
    shows: &str,
    columns: &[WrittenColumn],
) -> Result<(), AllocError> {
    let ascending = sorted_columns(alloc, columns, &[by_first()], None)?;
    line(answers, shows, ascending)?;
    let descending = sorted_columns(alloc, columns, &[key(0, true, false)], None)?;
    line(answers, shows, descending)
}

pub(crate) fn tell(alloc: Global, answers: &mut String) -> Result<(), AllocError> {
    both_ways(alloc, answers, "Int32", INT32)?;
    both_ways(alloc, answers, "Int64", INT64)?;
    both_ways(alloc, answers, "UInt32", UINT32)?;
    both_ways(alloc, answers, "UInt64", UINT64)?;
    both_ways(alloc, answers, "Boolean", BOOLEAN)?;
    both_ways(alloc, answers, "String", STRING)?;
    both_ways(alloc, answers, "Binary", BINARY)?;
    both_ways(alloc, answers, "Int128", INT128)
}
