//! Byte strings that are no ordered encodings.

use crate::keys::digits::rows_of;
use pipe_rows::{RowsError, SortField, decode_rows};
use pipe_schema::DataType;
use std::alloc::Global;
use std::io;

/// A decoding: what it shows, the type, the flags, and the rows.
type Decoding = (&'static str, DataType, SortField, &'static [&'static str]);

const PLAIN: SortField = SortField {
    descending: false,
    nulls_last: false,
};

const LAST: SortField = SortField {
    descending: false,
    nulls_last: true,
};

const DESCENDING: SortField = SortField {
    descending: true,
    nulls_last: false,
};

const DECODINGS: &[Decoding] = &[
    (
        "a first byte that is neither",
        DataType::Int64,
        PLAIN,
        &["02"],
    ),
    ("no byte", DataType::Int64, PLAIN, &[""]),
    (
        "a value cut short",
        DataType::Int64,
        PLAIN,
        &["0180000000000000"],
    ),
    (
        "a byte too many",
        DataType::Int64,
        PLAIN,
        &["01800000000000000100"],
    ),
    (
        "the null of the other flag",
        DataType::Int64,
        PLAIN,
        &["ff"],
    ),
    ("and again", DataType::Int64, LAST, &["00"]),
    (
        "a first byte complemented",
        DataType::Int64,
        DESCENDING,
        &["fe7ffffffffffffffe"],
    ),
    ("a Boolean of 2", DataType::Boolean, PLAIN, &["0102"]),
    (
        "a Boolean of 2, descending",
        DataType::Boolean,
        DESCENDING,
        &["01fd"],
    ),
    (
        "a text that isn't UTF-8",
        DataType::String,
        PLAIN,
        &["01ff0000"],
    ),
    ("a text without its end", DataType::String, PLAIN, &["0161"]),
    (
        "a text with half an end",
        DataType::String,
        PLAIN,
        &["016100"],
    ),
    (
        "a byte 0 followed by 1",
        DataType::Binary,
        PLAIN,
        &["01000100"],
    ),
    (
        "an Int128 of eight bytes",
        DataType::Int128,
        PLAIN,
        &["018000000000000001"],
    ),
    (
        "an Int64 of sixteen",
        DataType::Int64,
        PLAIN,
        &["0180000000000000000000000000000001"],
    ),
    (
        "a fault behind two rows",
        DataType::Int64,
        PLAIN,
        &["00", "018000000000000001", "02"],
    ),
    (
        "no fault",
        DataType::Int64,
        PLAIN,
        &["00", "018000000000000001"],
    ),
    ("no row", DataType::Int64, PLAIN, &[]),
];

/// Prints what a decoding answers.
fn print_decoding(rt: &impl Print, alloc: Global, decoding: &Decoding) -> io::Result<()> {
    let (name, dtype, field, digits) = decoding;
    let rows = rows_of(alloc, digits)?;
    match decode_rows(alloc, &rows, &[*dtype], &[*field]) {
        Ok(columns) => match columns.first() {
            Some(column) => println!(rt; "{name}: {} cells", column.len()),
            None => println!(rt; "{name}: no column"),
        },
        Err(RowsError::NotARow(i)) => println!(rt; "{name}: NotARow({i})"),
        Err(RowsError::Memory) => println!(rt; "{name}: Memory"),
    }
}

/// Prints what the decodings answer.
pub fn print_all(rt: &impl Print, alloc: Global) -> io::Result<()> {
    for decoding in DECODINGS {
        print_decoding(rt, alloc, decoding)?;
    }
    Ok(())
}
