//! Values of fixed width: the one form of what a column holds beside texts and byte strings.

ghost use Rattle.std.specs.Prelude.{◌≡◌, Option, Some, None, length, map, is_some, true, false, refl, IfSome, IsTrue};
ghost use Rattle.std.specs.Int.{w32, w64, w128, to_be_bytes, cast_unsigned};
ghost use Rattle.pipe_schema.specs.Cell.{eq_dtype, fits_dtype, dtype_of_cell, int32_cell, int64_cell, uint32_cell, uint64_cell, boolean_cell, int128_cell};
ghost use Rattle.pipe_column.specs.Column.{nullable};
ghost use Rattle.pipe_column.specs.Native.{InRange, has_fixed_width, little_endian, ordered_bytes, top_flipped, Reads};
ghost use Rattle.pipe_column.specs.Series.{named_cells};
ghost use Rattle.pipe_schema.specs.Sizes.{width_of};
ghost use Rattle.pipe_schema.specs.declared.any_value.AnyValue.{AnyValue};
ghost use Rattle.pipe_schema.specs.declared.data_type.DataType.{DataType};
ghost use Rattle.pipe_schema.specs.declared.data_type.DataType.TheVariants as dtype;

use crate::column::Column;
use crate::series::Series;
use crate::values::Values;
use pipe_schema::{AnyValue, DataType, Text};

/// The number of four bytes, the highest first.
fn read_32(bytes: &[u8]) -> u32
    requires { length bytes.now ≡ 4 }
    ensures { to_be_bytes w32 result ≡ bytes.now }
{
    let mut array = [0; 4];
    array.copy_from_slice(bytes);
    u32::from_be_bytes(array)
}

/// The number of eight bytes, the highest first.
fn read_64(bytes: &[u8]) -> u64
    requires { length bytes.now ≡ 8 }
    ensures { to_be_bytes w64 result ≡ bytes.now }
{
    let mut array = [0; 8];
    array.copy_from_slice(bytes);
    u64::from_be_bytes(array)
}

/// The number of sixteen bytes, the highest first.
fn read_128(bytes: &[u8]) -> u128
    requires { length bytes.now ≡ 16 }
    ensures { to_be_bytes w128 result ≡ bytes.now }
{
    let mut array = [0; 16];
    array.copy_from_slice(bytes);
    u128::from_be_bytes(array)
}

/// The bits of a signed number, the top one flipped.
fn flipped_32(x: i32) -> u32
    ensures { result ≡ top_flipped 31 (cast_unsigned w32 x) }
{
    x.cast_unsigned().wrapping_add(1 << 31)
}

/// The signed number of these bits, the top one flipped.
fn unflipped_32(bits: u32) -> i32
    ensures { top_flipped 31 (cast_unsigned w32 result) ≡ bits }
{
    bits.wrapping_add(1 << 31).cast_signed()
}

/// The bits of a signed number, the top one flipped.
fn flipped_64(x: i64) -> u64
    ensures { result ≡ top_flipped 63 (cast_unsigned w64 x) }
{
    x.cast_unsigned().wrapping_add(1 << 63)
}

/// The signed number of these bits, the top one flipped.
fn unflipped_64(bits: u64) -> i64
    ensures { top_flipped 63 (cast_unsigned w64 result) ≡ bits }
{
    bits.wrapping_add(1 << 63).cast_signed()
}

/// The bits of a signed number, the top one flipped.
fn flipped_128(x: i128) -> u128
    ensures { result ≡ top_flipped 127 (cast_unsigned w128 x) }
{
    x.cast_unsigned().wrapping_add(1 << 127)
}

/// The signed number of these bits, the top one flipped.
fn unflipped_128(bits: u128) -> i128
    ensures { top_flipped 127 (cast_unsigned w128 result) ≡ bits }
{
    bits.wrapping_add(1 << 127).cast_signed()
}

/// A type whose columns hold one value of fixed width at each place.
pub trait Native: Copy + Drop {
    /// The type of a column.
    ghost dtype_of: { DataType };

    /// The cell of a nullable value.
    ghost cell: { Option Self → AnyValue };

    /// The type of a column.
    fn dtype() -> DataType
        ensures { result ≡ dtype_of };

    /// How many bytes a value has.
    fn width() -> usize
        ensures { result ≡ width_of dtype_of };

    /// The cell of a nullable value.
    fn any_value(value: Option<Self>) -> AnyValue
        ensures { result ≡ cell value };

    /// Whether a cell has a value, and the value; where it is null, any.
    fn value(from: &AnyValue) -> (bool, Self)
        requires { IsTrue (fits_dtype dtype_of from.now) }
        ensures { cell (nullable result.0 result.1) ≡ from.now };

    /// The column of a series, where it is of the type.
    fn column(series: &Series) -> Option<&Column<Self>>
        ensures typed { is_some result ≡ eq_dtype series.now.dtype dtype_of }
        ensures cells { IfSome result (λ column. series.now.cells ≡ map cell column.now) };

    /// The column of a series of the type, by value.
    fn into_column(series: Series) -> Column<Self>
        requires { series.dtype ≡ dtype_of }
        ensures { series.cells ≡ map cell result };

    /// The series of a column, which takes no further memory.
    fn into_series(name: Text, column: Column<Self>) -> Series
        ensures { result ≡ named_cells name dtype_of (map cell column) };

    /// Writes the bytes of the value, the lowest first.
    fn write_little_endian(self, target: &mut [u8])
        requires { length target.old ≡ width_of dtype_of }
        ensures bytes { target.new ≡ little_endian (cell (Some self)) }
        ensures range { InRange (cell (Some self)) };

    /// Writes the bytes of the value whose order is that of the values: the highest first, and the top bit of a
    /// signed number flipped.
    fn write_ordered(self, target: &mut [u8])
        requires { length target.old ≡ width_of dtype_of }
        ensures bytes { target.new ≡ ordered_bytes (cell (Some self)) }
        ensures range { InRange (cell (Some self)) };

    /// The value of these ordered bytes, if they are those of a value.
    fn read_ordered(bytes: &[u8]) -> Option<Self>
        requires { length bytes.now ≡ width_of dtype_of }
        ensures { Reads cell bytes.now result };

    /// A missing value is null.
    ghost missing: { cell None ≡ AnyValue.Null };

    /// A value is of the type.
    ghost typed: { (x : Self) → dtype_of_cell (cell (Some x)) ≡ Some dtype_of };

    /// A value is of fixed width.
    ghost fixed: { (x : Self) → has_fixed_width (cell (Some x)) ≡ true };
}

impl Native for i32 {
    ghost dtype_of = { dtype.Int32 };

    ghost cell = { int32_cell };

    ghost missing = { refl };

    ghost typed = { λ x. refl };

    ghost fixed = { λ x. refl };

    fn dtype() -> DataType {
        DataType::Int32
    }

    fn width() -> usize {
        4
    }

    fn any_value(value: Option<i32>) -> AnyValue
        ensures { result ≡ int32_cell value }
    {
        value.map_or(AnyValue::Null, AnyValue::Int32)
    }

    fn value(from: &AnyValue) -> (bool, i32) {
        match from {
            AnyValue::Int32(x) => (true, *x),
            _ => (false, 0),
        }
    }

    fn column(series: &Series) -> Option<&Column<i32>> {
        match series.values() {
            Values::Int32(column) => Some(column),
            _ => None,
        }
    }

    fn into_column(series: Series) -> Column<i32> {
        match series.into_values() {
            Values::Int32(column) => column,
            _ => unreachable!(),
        }
    }

    fn into_series(name: Text, column: Column<i32>) -> Series
        ensures { result ≡ named_cells name dtype.Int32 (map int32_cell column) }
    {
        Series::from_values(name, Values::Int32(column))
    }

    fn write_little_endian(self, target: &mut [u8]) {
        target.copy_from_slice(&self.cast_unsigned().to_le_bytes());
    }

    fn write_ordered(self, target: &mut [u8]) {
        target.copy_from_slice(&flipped_32(self).to_be_bytes());
    }

    fn read_ordered(bytes: &[u8]) -> Option<i32> {
        Some(unflipped_32(read_32(bytes)))
    }
}

impl Native for i64 {
    ghost dtype_of = { dtype.Int64 };

    ghost cell = { int64_cell };

    ghost missing = { refl };

    ghost typed = { λ x. refl };

    ghost fixed = { λ x. refl };

    fn dtype() -> DataType {
        DataType::Int64
    }

    fn width() -> usize {
        8
    }

    fn any_value(value: Option<i64>) -> AnyValue
        ensures { result ≡ int64_cell value }
    {
        value.map_or(AnyValue::Null, AnyValue::Int64)
    }

    fn value(from: &AnyValue) -> (bool, i64) {
        match from {
            AnyValue::Int64(x) => (true, *x),
            _ => (false, 0),
        }
    }

    fn column(series: &Series) -> Option<&Column<i64>> {
        match series.values() {
            Values::Int64(column) => Some(column),
            _ => None,
        }
    }

    fn into_column(series: Series) -> Column<i64> {
        match series.into_values() {
            Values::Int64(column) => column,
            _ => unreachable!(),
        }
    }

    fn into_series(name: Text, column: Column<i64>) -> Series
        ensures { result ≡ named_cells name dtype.Int64 (map int64_cell column) }
    {
        Series::from_values(name, Values::Int64(column))
    }

    fn write_little_endian(self, target: &mut [u8]) {
        target.copy_from_slice(&self.cast_unsigned().to_le_bytes());
    }

    fn write_ordered(self, target: &mut [u8]) {
        target.copy_from_slice(&flipped_64(self).to_be_bytes());
    }

    fn read_ordered(bytes: &[u8]) -> Option<i64> {
        Some(unflipped_64(read_64(bytes)))
    }
}

impl Native for u32 {
    ghost dtype_of = { dtype.UInt32 };

    ghost cell = { uint32_cell };

    ghost missing = { refl };

    ghost typed = { λ x. refl };

    ghost fixed = { λ x. refl };

    fn dtype() -> DataType {
        DataType::UInt32
    }

    fn width() -> usize {
        4
    }

    fn any_value(value: Option<u32>) -> AnyValue
        ensures { result ≡ uint32_cell value }
    {
        value.map_or(AnyValue::Null, AnyValue::UInt32)
    }

    fn value(from: &AnyValue) -> (bool, u32) {
        match from {
            AnyValue::UInt32(x) => (true, *x),
            _ => (false, 0),
        }
    }

    fn column(series: &Series) -> Option<&Column<u32>> {
        match series.values() {
            Values::UInt32(column) => Some(column),
            _ => None,
        }
    }

    fn into_column(series: Series) -> Column<u32> {
        match series.into_values() {
            Values::UInt32(column) => column,
            _ => unreachable!(),
        }
    }

    fn into_series(name: Text, column: Column<u32>) -> Series
        ensures { result ≡ named_cells name dtype.UInt32 (map uint32_cell column) }
    {
        Series::from_values(name, Values::UInt32(column))
    }

    fn write_little_endian(self, target: &mut [u8]) {
        target.copy_from_slice(&self.to_le_bytes());
    }

    fn write_ordered(self, target: &mut [u8]) {
        target.copy_from_slice(&self.to_be_bytes());
    }

    fn read_ordered(bytes: &[u8]) -> Option<u32> {
        Some(read_32(bytes))
    }
}

impl Native for u64 {
    ghost dtype_of = { dtype.UInt64 };

    ghost cell = { uint64_cell };

    ghost missing = { refl };

    ghost typed = { λ x. refl };

    ghost fixed = { λ x. refl };

    fn dtype() -> DataType {
        DataType::UInt64
    }

    fn width() -> usize {
        8
    }

    fn any_value(value: Option<u64>) -> AnyValue
        ensures { result ≡ uint64_cell value }
    {
        value.map_or(AnyValue::Null, AnyValue::UInt64)
    }

    fn value(from: &AnyValue) -> (bool, u64) {
        match from {
            AnyValue::UInt64(x) => (true, *x),
            _ => (false, 0),
        }
    }

    fn column(series: &Series) -> Option<&Column<u64>> {
        match series.values() {
            Values::UInt64(column) => Some(column),
            _ => None,
        }
    }

    fn into_column(series: Series) -> Column<u64> {
        match series.into_values() {
            Values::UInt64(column) => column,
            _ => unreachable!(),
        }
    }

    fn into_series(name: Text, column: Column<u64>) -> Series
        ensures { result ≡ named_cells name dtype.UInt64 (map uint64_cell column) }
    {
        Series::from_values(name, Values::UInt64(column))
    }

    fn write_little_endian(self, target: &mut [u8]) {
        target.copy_from_slice(&self.to_le_bytes());
    }

    fn write_ordered(self, target: &mut [u8]) {
        target.copy_from_slice(&self.to_be_bytes());
    }

    fn read_ordered(bytes: &[u8]) -> Option<u64> {
        Some(read_64(bytes))
    }
}

impl Native for bool {
    ghost dtype_of = { dtype.Boolean };

    ghost cell = { boolean_cell };

    ghost missing = { refl };

    ghost typed = { λ x. refl };

    ghost fixed = { λ x. refl };

    fn dtype() -> DataType {
        DataType::Boolean
    }

    fn width() -> usize {
        1
    }

    fn any_value(value: Option<bool>) -> AnyValue
        ensures { result ≡ boolean_cell value }
    {
        value.map_or(AnyValue::Null, AnyValue::Boolean)
    }

    fn value(from: &AnyValue) -> (bool, bool) {
        match from {
            AnyValue::Boolean(x) => (true, *x),
            _ => (false, false),
        }
    }

    fn column(series: &Series) -> Option<&Column<bool>> {
        match series.values() {
            Values::Boolean(column) => Some(column),
            _ => None,
        }
    }

    fn into_column(series: Series) -> Column<bool> {
        match series.into_values() {
            Values::Boolean(column) => column,
            _ => unreachable!(),
        }
    }

    fn into_series(name: Text, column: Column<bool>) -> Series
        ensures { result ≡ named_cells name dtype.Boolean (map boolean_cell column) }
    {
        Series::from_values(name, Values::Boolean(column))
    }

    fn write_little_endian(self, target: &mut [u8]) {
        target[0] = u8::from(self);
    }

    fn write_ordered(self, target: &mut [u8]) {
        target[0] = u8::from(self);
    }

    fn read_ordered(bytes: &[u8]) -> Option<bool> {
        match bytes[0] {
            0 => Some(false),
            1 => Some(true),
            _ => None,
        }
    }
}

impl Native for i128 {
    ghost dtype_of = { dtype.Int128 };

    ghost cell = { int128_cell };

    ghost missing = { refl };

    ghost typed = { λ x. refl };

    ghost fixed = { λ x. refl };

    fn dtype() -> DataType {
        DataType::Int128
    }

    fn width() -> usize {
        16
    }

    fn any_value(value: Option<i128>) -> AnyValue
        ensures { result ≡ int128_cell value }
    {
        value.map_or(AnyValue::Null, AnyValue::Int128)
    }

    fn value(from: &AnyValue) -> (bool, i128) {
        match from {
            AnyValue::Int128(x) => (true, *x),
            _ => (false, 0),
        }
    }

    fn column(series: &Series) -> Option<&Column<i128>> {
        match series.values() {
            Values::Int128(column) => Some(column),
            _ => None,
        }
    }

    fn into_column(series: Series) -> Column<i128> {
        match series.into_values() {
            Values::Int128(column) => column,
            _ => unreachable!(),
        }
    }

    fn into_series(name: Text, column: Column<i128>) -> Series
        ensures { result ≡ named_cells name dtype.Int128 (map int128_cell column) }
    {
        Series::from_values(name, Values::Int128(column))
    }

    fn write_little_endian(self, target: &mut [u8]) {
        target.copy_from_slice(&self.cast_unsigned().to_le_bytes());
    }

    fn write_ordered(self, target: &mut [u8]) {
        target.copy_from_slice(&flipped_128(self).to_be_bytes());
    }

    fn read_ordered(bytes: &[u8]) -> Option<i128> {
        Some(unflipped_128(read_128(bytes)))
    }
}
