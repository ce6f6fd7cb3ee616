//! Whether a value spells what is wanted of it, by the reader of jobs.

ghost use Rattle.std.specs.Prelude.{◌≡◌, true, false, is_some, IfOk};
ghost use Rattle.serde_json.specs.Find.{as_array};
ghost use Rattle.pipe_value.specs.View.{view};
ghost use Rattle.pipe_job.specs.Kinds.{is_version};
ghost use Rattle.pipe_job.specs.Shape.{is_cell, is_couple, is_exactly, is_list};
ghost use Rattle.pipe_why_text.specs.Wanted.{HasShape, Misspells, SpellsJob, is_wanted};

use crate::want::{Foreign, Want};
use pipe_column::Series;
use pipe_expr::{Expr, JoinCoalesce, JoinType, NamedExpr, RenamePair};
use pipe_frame::DataFrame;
use pipe_job::{Misread, Spelled, job_of, two_items};
use pipe_plan::{IR, PlanSlice, RowsHint};
use pipe_schema::{Bytes, DataType, List, Text};
use pipe_value::Value;
use std::alloc::{AllocError, Global};

/// Whether a value is read as a `T`.
fn is_read<T: Spelled>(alloc: Global, value: &Value) -> Result<bool, AllocError>
    requires { HasShape T.shape T.spelling T.fits }
    ensures no { IfOk result (λ read. read ≡ false → T.shape (view value.now) ≡ false) }
    ensures yes { IfOk result (λ read. read ≡ true → T.shape (view value.now) ≡ true) }
{
    match T::read(alloc, value) {
        Ok(read) => {
            drop(read);
            Ok(true)
        }
        Err(Misread::Other) => Ok(false),
        Err(Misread::Memory) => Err(AllocError),
    }
}

/// Whether a value is a cell of a type.
pub fn is_cell(alloc: Global, dtype: DataType, value: &Value) -> Result<bool, AllocError>
    ensures no { IfOk result (λ holds. holds ≡ false → is_cell dtype (view value.now) ≡ false) }
    ensures yes { IfOk result (λ holds. holds ≡ true → is_cell dtype (view value.now) ≡ true) }
{
    match dtype {
        DataType::Int32 => is_read::<Option<i32>>(alloc, value),
        DataType::Int64 => is_read::<Option<i64>>(alloc, value),
        DataType::UInt32 => is_read::<Option<u32>>(alloc, value),
        DataType::UInt64 => is_read::<Option<u64>>(alloc, value),
        DataType::Boolean => is_read::<Option<bool>>(alloc, value),
        DataType::String => is_read::<Option<Text>>(alloc, value),
        DataType::Binary => is_read::<Option<Bytes>>(alloc, value),
        DataType::Int128 => is_read::<Option<i128>>(alloc, value),
    }
}

/// Whether a value is an array of cells of a type.
fn are_cells(alloc: Global, dtype: DataType, value: &Value) -> Result<bool, AllocError>
    ensures no { IfOk result (λ holds.
        holds ≡ false → is_list (is_cell dtype) (view value.now) ≡ false) }
    ensures yes { IfOk result (λ holds.
        holds ≡ true → is_list (is_cell dtype) (view value.now) ≡ true) }
{
    match dtype {
        DataType::Int32 => is_read::<List<Option<i32>>>(alloc, value),
        DataType::Int64 => is_read::<List<Option<i64>>>(alloc, value),
        DataType::UInt32 => is_read::<List<Option<u32>>>(alloc, value),
        DataType::UInt64 => is_read::<List<Option<u64>>>(alloc, value),
        DataType::Boolean => is_read::<List<Option<bool>>>(alloc, value),
        DataType::String => is_read::<List<Option<Text>>>(alloc, value),
        DataType::Binary => is_read::<List<Option<Bytes>>>(alloc, value),
        DataType::Int128 => is_read::<List<Option<i128>>>(alloc, value),
    }
}

/// Whether a value is the word of a kind of nodes.
fn is_kind(value: &Value) -> bool
    ensures no { result ≡ false → is_wanted Want.Kind (view value.now) ≡ false }
    ensures yes { result ≡ true → is_wanted Want.Kind (view value.now) ≡ true }
{
    match value.as_str() {
        Some("DataFrameScan") => true,
        Some("Filter") => true,
        Some("SimpleProjection") => true,
        Some("Select") => true,
        Some("HStack") => true,
        Some("Unpivot") => true,
        Some("Rename") => true,
        Some("Union") => true,
        Some("Join") => true,
        Some("Sort") => true,
        _ => false,
    }
}

/// Whether a value is the word of a join's kind.
fn is_join_word(value: &Value) -> bool
    ensures no { result ≡ false → is_wanted (Want.Foreign Foreign.JoinWord) (view value.now) ≡ false }
    ensures yes { result ≡ true → is_wanted (Want.Foreign Foreign.JoinWord) (view value.now) ≡ true }
{
    match value.as_str() {
        Some("Join") => true,
        _ => false,
    }
}

/// Whether a value is the word of a side.
fn is_side(value: &Value) -> bool
    ensures no { result ≡ false → is_wanted (Want.Foreign Foreign.Side) (view value.now) ≡ false }
    ensures yes { result ≡ true → is_wanted (Want.Foreign Foreign.Side) (view value.now) ≡ true }
{
    match value.as_str() {
        Some("left") => true,
        Some("right") => true,
        _ => false,
    }
}

/// Whether a value is the word of what an edit does.
fn is_word(value: &Value) -> bool
    ensures no { result ≡ false → is_wanted (Want.Foreign Foreign.Word) (view value.now) ≡ false }
    ensures yes { result ≡ true → is_wanted (Want.Foreign Foreign.Word) (view value.now) ≡ true }
{
    match value.as_str() {
        Some("insert") => true,
        Some("remove") => true,
        _ => false,
    }
}

/// Whether a value is the number of a table.
fn is_table(value: &Value, table: u64) -> bool
    ensures no { result ≡ false → is_exactly table (view value.now) ≡ false }
    ensures yes { result ≡ true → is_exactly table (view value.now) ≡ true }
{
    match value.as_u64() {
        Some(n) => n == table,
        None => false,
    }
}

/// Whether a value is the number of a version.
fn is_version(value: &Value) -> bool
    ensures no { result ≡ false → is_version (view value.now) ≡ false }
    ensures yes { result ≡ true → is_version (view value.now) ≡ true }
{
    match value.as_u64() {
        Some(1) => true,
        Some(2) => true,
        _ => false,
    }
}

/// Whether a value is an object.
fn is_object(value: &Value) -> bool
    ensures no { result ≡ false → is_wanted Want.Literal (view value.now) ≡ false }
    ensures yes { result ≡ true → is_wanted Want.Literal (view value.now) ≡ true }
{
    matches!(value, Value::Object(_))
}

/// Whether a value spells a job.
#[tactic(auto, using(crate::proofs::Shapes::job_object))]
fn is_job(alloc: Global, value: &Value) -> Result<bool, AllocError>
    ensures no { IfOk result (λ holds. holds ≡ false → Misspells Want.Job (view value.now)) }
    ensures yes { IfOk result (λ holds. holds ≡ true → SpellsJob (view value.now)) }
    ensures object { IfOk result (λ holds.
        holds ≡ true → is_wanted Want.Job (view value.now) ≡ true) }
{
    match job_of(alloc, value)? {
        Some(job) => {
            drop(job);
            Ok(true)
        }
        None => Ok(false),
    }
}

/// Whether a value is an array of two.
fn is_couple(alloc: Global, value: &Value) -> Result<bool, AllocError>
    ensures no { IfOk result (λ holds. holds ≡ false → is_couple (view value.now) ≡ false) }
    ensures yes { IfOk result (λ holds. holds ≡ true → is_couple (view value.now) ≡ true) }
{
    match two_items(alloc, value) {
        Ok(_) => Ok(true),
        Err(Misread::Other) => Ok(false),
        Err(Misread::Memory) => Err(AllocError),
    }
}

/// Whether a value is an array.
fn is_array(value: &Value) -> Result<bool, AllocError>
    ensures no { IfOk result (λ holds. holds ≡ false → is_some (as_array (view value.now)) ≡ false) }
    ensures yes { IfOk result (λ holds. holds ≡ true → is_some (as_array (view value.now)) ≡ true) }
{
    match value.array_len()? {
        Some(_) => Ok(true),
        None => Ok(false),
    }
}

/// Whether a value spells a part of what another command reads.
fn is_foreign_spelled(alloc: Global, foreign: Foreign, value: &Value) -> Result<bool, AllocError>
    ensures no { IfOk result (λ holds.
        holds ≡ false → is_wanted (Want.Foreign foreign) (view value.now) ≡ false) }
    ensures yes { IfOk result (λ holds.
        holds ≡ true → is_wanted (Want.Foreign foreign) (view value.now) ≡ true) }
{
    match foreign {
        Foreign::Reconciliation | Foreign::Replay => Ok(is_object(value)),
        Foreign::TwoFrames => is_couple(alloc, value),
        Foreign::KeptJoin => is_read::<IR>(alloc, value),
        Foreign::JoinWord => Ok(is_join_word(value)),
        Foreign::LeftTable => Ok(is_table(value, 0)),
        Foreign::RightTable => Ok(is_table(value, 1)),
        Foreign::Side => Ok(is_side(value)),
        Foreign::Word => Ok(is_word(value)),
        Foreign::Edits | Foreign::Edit | Foreign::Row => is_array(value),
    }
}

/// Whether a value spells what is wanted. Of what has no reader of its own, as the two sides of an operator, only its
/// outermost form is looked at.
pub fn is_spelled(alloc: Global, want: Want, value: &Value) -> Result<bool, AllocError>
    ensures no { IfOk result (λ holds. holds ≡ false → Misspells want (view value.now)) }
    ensures yes { IfOk result (λ holds. holds ≡ true → is_wanted want (view value.now) ≡ true) }
    ensures job { IfOk result
        (λ holds. holds ≡ true → want ≡ Want.Job → SpellsJob (view value.now)) }
{
    match want {
        Want::Version => Ok(is_version(value)),
        Want::Kind => Ok(is_kind(value)),
        Want::Whole32 => is_read::<u32>(alloc, value),
        Want::Whole64 => is_read::<u64>(alloc, value),
        Want::MaybeWhole64 => is_read::<Option<u64>>(alloc, value),
        Want::Signed64 => is_read::<i64>(alloc, value),
        Want::Truth => is_read::<bool>(alloc, value),
        Want::Text => is_read::<Text>(alloc, value),
        Want::Type => is_read::<DataType>(alloc, value),
        Want::How => is_read::<JoinType>(alloc, value),
        Want::Coalesce => is_read::<JoinCoalesce>(alloc, value),
        Want::Cell(dtype) => is_cell(alloc, dtype, value),
        Want::Texts => is_read::<List<Text>>(alloc, value),
        Want::MaybeTexts => is_read::<Option<List<Text>>>(alloc, value),
        Want::Truths => is_read::<List<bool>>(alloc, value),
        Want::Numbers => is_read::<List<u32>>(alloc, value),
        Want::Hint => is_read::<RowsHint>(alloc, value),
        Want::Slice => is_read::<Option<PlanSlice>>(alloc, value),
        Want::Expr => is_read::<Expr>(alloc, value),
        Want::Exprs => is_read::<List<Expr>>(alloc, value),
        Want::NamedExpr => is_read::<NamedExpr>(alloc, value),
        Want::NamedExprs => is_read::<List<NamedExpr>>(alloc, value),
        Want::Pair => is_read::<RenamePair>(alloc, value),
        Want::Pairs => is_read::<List<RenamePair>>(alloc, value),
        Want::Node => is_read::<IR>(alloc, value),
        Want::Nodes => is_read::<List<IR>>(alloc, value),
        Want::Column => is_read::<Series>(alloc, value),
        Want::Columns => is_read::<List<Series>>(alloc, value),
        Want::Frame => is_read::<DataFrame>(alloc, value),
        Want::Frames => is_read::<List<DataFrame>>(alloc, value),
        Want::Sides => is_couple(alloc, value),
        Want::Cells(dtype) => are_cells(alloc, dtype, value),
        Want::Job => is_job(alloc, value),
        Want::Literal => Ok(is_object(value)),
        Want::Foreign(foreign) => is_foreign_spelled(alloc, foreign, value),
    }
}
