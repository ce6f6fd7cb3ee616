//! Columns of each type, null first and then values.

use pipe_schema::DataType;

/// A column: what it is called here, its type and its cells.
pub type Values = (&'static str, DataType, &'static [&'static str]);

/// A column of each type.
pub const VALUES: &[Values] = &[
    ("Int32", DataType::Int32, &["-", "1", "-1"]),
    ("Int64", DataType::Int64, &["-", "1", "-1"]),
    ("UInt32", DataType::UInt32, &["-", "1", "4294967295"]),
    (
        "UInt64",
        DataType::UInt64,
        &["-", "1", "18446744073709551615"],
    ),
    ("Boolean", DataType::Boolean, &["-", "false", "true"]),
    ("String", DataType::String, &["-", "a", "a\0"]),
    ("Binary", DataType::Binary, &["-", "", "00", "61ff"]),
    ("Int128", DataType::Int128, &["-", "1", "-1"]),
];

/// A column of each type in ascending order, null first.
pub const ASCENDING: &[Values] = &[
    (
        "Int32",
        DataType::Int32,
        &[
            "-",
            "-2147483648",
            "-256",
            "-1",
            "0",
            "1",
            "255",
            "256",
            "2147483647",
        ],
    ),
    (
        "Int64",
        DataType::Int64,
        &[
            "-",
            "-9223372036854775808",
            "-256",
            "-1",
            "0",
            "1",
            "255",
            "256",
            "9223372036854775807",
        ],
    ),
    (
        "UInt32",
        DataType::UInt32,
        &["-", "0", "1", "255", "256", "4294967295"],
    ),
    (
        "UInt64",
        DataType::UInt64,
        &["-", "0", "1", "255", "256", "18446744073709551615"],
    ),
    ("Boolean", DataType::Boolean, &["-", "false", "true"]),
    (
        "String",
        DataType::String,
        &[
            "-", "", "\0", "\0\0", "\0a", "a", "a\0", "a\0b", "aa", "\u{ff}",
        ],
    ),
    (
        "Binary",
        DataType::Binary,
        &["-", "", "00", "0000", "00ff", "01", "ff", "ff00", "ffff"],
    ),
    (
        "Int128",
        DataType::Int128,
        &[
            "-",
            "-170141183460469231731687303715884105728",
            "-18446744073709551616",
            "-1",
            "0",
            "1",
            "18446744073709551615",
            "18446744073709551616",
            "170141183460469231731687303715884105727",
        ],
    ),
];
