//! Encoded rows as hexadecimal digits.

use pipe_rows::RowsEncoded;
use pipe_schema::Bytes;
use std::alloc::{AllocError, Global};

/// The rows in hexadecimal digits, a blank before each, and a star behind each that had a null.
pub fn digits_of(alloc: Global, rows: &RowsEncoded) -> Result<String, AllocError> {
    let mut text = String::new(alloc);
    for i in 0..rows.len() {
        text.push(' ')?;
        text.push_str(&hex::encode(alloc, rows.row(i))?)?;
        if rows.has_null(i) {
            text.push('*')?;
        }
    }
    Ok(text)
}

/// The bytes that some hexadecimal digits spell, none where they spell no bytes.
fn bytes_of(alloc: Global, digits: &str) -> Result<Bytes, AllocError> {
    match hex::decode(alloc, digits) {
        Ok(bytes) => Ok(Bytes::from_vec(bytes)),
        Err(hex::FromHexError::OutOfMemory) => Err(AllocError),
        Err(_) => Ok(Bytes::new(alloc)),
    }
}

/// The rows that some hexadecimal digits spell.
pub fn rows_of(alloc: Global, digits: &[&str]) -> Result<RowsEncoded, AllocError> {
    let mut rows = Vec::new(alloc);
    for row in digits {
        rows.push(bytes_of(alloc, row)?)?;
    }
    RowsEncoded::from_rows(alloc, rows.as_slice())
}
