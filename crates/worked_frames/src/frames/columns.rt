//! Columns by their parts, and the bytes of values of fixed width.

use crate::frames::told::{line, not_made, series_text};
use pipe_column::{Column, Native, Series, Validities};
use pipe_schema::Text;
use std::alloc::{AllocError, Global};

/// A column of numbers.
fn numbers(alloc: Global, values: &[Option<i32>]) -> Result<Column<i32>, AllocError> {
    let mut column = Column::new(alloc);
    for value in values {
        match value {
            Some(value) => column.push(*value)?,
            None => column.push_null(0)?,
        }
    }
    Ok(column)
}

/// Each value doubled, in the column's memory.
fn doubled(alloc: Global) -> Result<String, AllocError> {
    let (validity, mut values) = numbers(alloc, &[Some(3), None, Some(-4)])?.into_parts()?;
    for value in values.iter_mut() {
        *value = value.wrapping_mul(2);
    }
    if validity.len() != values.len() {
        return not_made(alloc);
    }
    let column = Column::from_parts(validity, values);
    series_text(alloc, &Series::from_column(Text::new(alloc), column))
}

/// How many values are there, by one look at the validity.
fn present(alloc: Global) -> Result<String, AllocError> {
    let column = numbers(alloc, &[Some(3), None, Some(-4)])?;
    let (validity, _) = column.parts();
    let present = match validity {
        Validities::All(count) => count,
        Validities::Each(marks) => marks.iter().filter(|mark| **mark).count(),
    };
    format!(in alloc; "{present} of {}", column.len())
}

/// The bytes of a value, lowest first.
fn little_endian<T: Native>(alloc: Global, value: T) -> Result<String, AllocError> {
    let mut bytes = vec![in alloc; 0; T::width()]?;
    value.write_little_endian(&mut bytes);
    hex::encode(alloc, bytes.as_slice())
}

/// The bytes of a value whose order is that of the values.
fn ordered<T: Native>(alloc: Global, value: T) -> Result<String, AllocError> {
    let mut bytes = vec![in alloc; 0; T::width()]?;
    value.write_ordered(&mut bytes);
    hex::encode(alloc, bytes.as_slice())
}

/// Whether what is read of a value's ordered bytes has its cell.
fn reads_back<T: Native>(alloc: Global, value: T) -> Result<bool, AllocError> {
    let mut bytes = vec![in alloc; 0; T::width()]?;
    value.write_ordered(&mut bytes);
    let read = T::read_ordered(bytes.as_slice());
    Ok(T::any_value(read).is_same(&T::any_value(Some(value))))
}

/// The bytes of a value both ways, and whether it is read back.
fn bytes_of<T: Native>(alloc: Global, value: T) -> Result<String, AllocError> {
    let low_first = little_endian(alloc, value)?;
    let in_order = ordered(alloc, value)?;
    format!(in alloc; "{low_first} {in_order} {}", reads_back(alloc, value)?)
}

/// A byte 2 is no truth value.
fn no_truth(alloc: Global) -> Result<String, AllocError> {
    format!(in alloc; "{}", bool::read_ordered(&[2]).is_none())
}

fn tell_bytes(alloc: Global, answers: &mut String) -> Result<(), AllocError> {
    line(answers, "bytes of 1, Int32", bytes_of(alloc, 1i32)?)?;
    line(answers, "bytes of -1, Int64", bytes_of(alloc, -1i64)?)?;
    line(answers, "bytes of 258, UInt32", bytes_of(alloc, 258u32)?)?;
    line(answers, "bytes of 258, UInt64", bytes_of(alloc, 258u64)?)
}

pub(crate) fn tell(alloc: Global, answers: &mut String) -> Result<(), AllocError> {
    line(answers, "each doubled", doubled(alloc)?)?;
    line(answers, "values that are there", present(alloc)?)?;
    tell_bytes(alloc, answers)?;
    line(answers, "bytes of true", bytes_of(alloc, true)?)?;
    line(answers, "bytes of 1, Int128", bytes_of(alloc, 1i128)?)?;
    line(answers, "bytes of -2, Int128", bytes_of(alloc, -2i128)?)?;
    line(answers, "2 is no truth value", no_truth(alloc)?)
}
