//! The codes of keys.

ghost use Rattle.std.specs.Prelude.{◌≡◌, ◌<◌, All, IfOk, None, OnOk, length, map};
ghost use Rattle.std.specs.Option.{option_copied};
ghost use Rattle.pipe_frame.specs.Frame.{select_fault};
ghost use Rattle.pipe_rows.specs.Encoded.{encoded_at};
ghost use Rattle.pipe_recon.specs.Codes.{HasTypedKey, codes_of, encoded_code, encoded_key, key_table};

use crate::recon_spec::ReconSpec;
use pipe_column::BinaryColumn;
use pipe_frame::DataFrame;
use pipe_rows::{RowsEncoded, convert_columns_no_order};
use pipe_schema::{FrameError, Text};
use std::alloc::{AllocError, Global};

/// The key columns of a frame.
#[tactic(auto, using(crate::proofs::KeyColumns::key_table_is))]
fn key_columns(frame: &DataFrame, on: &[Text]) -> Result<DataFrame, AllocError>
    requires { select_fault frame.now.schema on.now ≡ None }
    ensures { IfOk result (λ keys. keys ≡ key_table on.now frame.now) }
{
    let _ = frame.get_columns();
    match frame.select(on) {
        Ok(keys) => Ok(keys),
        Err(FrameError::Memory) => Err(AllocError),
        Err(_) => unreachable!(),
    }
}

/// The keys of a frame's rows, encoded.
#[tactic(auto, using(crate::proofs::KeyColumns::some_column, crate::proofs::KeyColumns::columns_even))]
fn encoded_keys(alloc: Global, frame: &DataFrame, on: &[Text]) -> Result<RowsEncoded, AllocError>
    requires { select_fault frame.now.schema on.now ≡ None }
    ensures keys { IfOk result (λ keys.
        keys ≡ map (encoded_key frame.now.schema on.now) frame.now.rows) }
    ensures typed { OnOk result (All (HasTypedKey frame.now.schema on.now) frame.now.rows) }
{
    let keys = key_columns(frame, on)?;
    let encoded = convert_columns_no_order(alloc, keys.get_columns())?;
    Ok(encoded)
}

/// The code of an encoded key.
fn code_at(keys: &RowsEncoded, join_nulls: bool, i: usize) -> Option<&[u8]>
    requires { i < length keys.now }
    ensures { option_copied result ≡ encoded_code join_nulls (encoded_at keys.now i) }
{
    if join_nulls || !keys.has_null(i) {
        Some(keys.row(i))
    } else {
        None
    }
}

/// The codes of encoded keys.
fn codes_of_keys(
    alloc: Global,
    keys: &RowsEncoded,
    join_nulls: bool,
) -> Result<BinaryColumn, AllocError>
    ensures { IfOk result (λ codes. codes ≡ map (encoded_code join_nulls) keys.now) }
{
    let mut codes = BinaryColumn::new(alloc);
    for i in 0..keys.len() {
        codes.push(code_at(keys, join_nulls, i))?;
    }
    Ok(codes)
}

/// The codes of a frame's rows: their keys as bytes, and none where a key doesn't join.
pub fn codes_of(
    alloc: Global,
    frame: &DataFrame,
    spec: &ReconSpec,
) -> Result<BinaryColumn, AllocError>
    requires { select_fault frame.now.schema spec.now.on ≡ None }
    ensures codes { IfOk result (λ codes.
        codes ≡ codes_of frame.now.schema spec.now frame.now.rows) }
    ensures typed { OnOk result (All (HasTypedKey frame.now.schema spec.now.on) frame.now.rows) }
{
    let keys = encoded_keys(alloc, frame, spec.on.as_slice())?;
    let codes = codes_of_keys(alloc, &keys, spec.join_nulls)?;
    Ok(codes)
}
