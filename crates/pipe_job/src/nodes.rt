//! Nodes in JSON.

ghost use Rattle.std.specs.Prelude.{◌≡◌, codes};
ghost use Rattle.pipe_value.specs.View.{view};
ghost use Rattle.pipe_job.specs.Reads.{ReadWhere};
ghost use Rattle.pipe_job.specs.Shape.{is_named, is_pair, is_slice, is_scan, is_filter, is_projection, is_exprs, is_unpivot, is_rename, is_union, is_sort};
ghost use Rattle.pipe_job.specs.Kinds.{is_kind, is_node};
ghost use Rattle.pipe_job.specs.FormulaSpelling.{named_expr_spelling, NamedExprFits};
ghost use Rattle.pipe_job.specs.NodeSpelling.{pair_spelling, slice_spelling, SliceFits, ir_spelling, IrFits, IsNode};

use crate::join::join_of;
use crate::kinds::{Kind, kind_of};
use crate::members::{Members, two_items};
use crate::misread::Misread;
use crate::spelled::Spelled;
use pipe_expr::{Expr, FunctionIR, NamedExpr, RenamePair};
use pipe_plan::{IR, PlanSlice, SortOptions};
use pipe_schema::{List, Text};
use pipe_value::Value;
use std::alloc::Global;

impl Spelled for NamedExpr {
    ghost spelling = { named_expr_spelling };

    ghost fits = { NamedExprFits };

    ghost shape = { is_named };

    #[tactic(auto, using(crate::proofs::Shapes::shapes))]
    fn read(alloc: Global, value: &Value) -> Result<NamedExpr, Misread> {
        let mut members = Members::of(value)?;
        let expr = members.take("expr")?;
        let name = members.field::<Text>(alloc, "name")?;
        members.end()?;
        let expr = Expr::read(alloc, expr)?;
        Ok(NamedExpr { name, expr })
    }
}

impl Spelled for RenamePair {
    ghost use Rattle.std.specs.Prelude.{⊤};

    ghost spelling = { pair_spelling };

    ghost fits = { λ _. ⊤ };

    ghost shape = { is_pair };

    fn read(alloc: Global, value: &Value) -> Result<RenamePair, Misread> {
        let mut members = Members::of(value)?;
        let existing = members.field::<Text>(alloc, "existing")?;
        let new_name = members.field::<Text>(alloc, "new")?;
        members.end()?;
        Ok(RenamePair { existing, new_name })
    }
}

impl Spelled for PlanSlice {
    ghost spelling = { slice_spelling };

    ghost fits = { SliceFits };

    ghost shape = { is_slice };

    fn read(alloc: Global, value: &Value) -> Result<PlanSlice, Misread> {
        let (offset, len) = two_items(alloc, value)?;
        let offset = i64::read(alloc, offset.value())?;
        let len = u64::read(alloc, len.value())?;
        Ok(PlanSlice { offset, len })
    }
}

/// The scan that a value spells.
#[tactic(auto, using(crate::proofs::Shapes::shapes))]
fn scan_of(alloc: Global, value: &Value) -> Result<IR, Misread>
    ensures { ReadWhere (is_scan (view value.now)) (IsNode (view value.now)) result }
{
    let mut members = Members::of(value)?;
    let columns = members.field::<Option<List<Text>>>(alloc, "columns")?;
    let frame = members.field::<u32>(alloc, "frame")?;
    members.word("node", "DataFrameScan")?;
    members.end()?;
    Ok(IR::DataFrameScan { frame, columns })
}

/// The filter that a value spells.
fn filter_of(alloc: Global, value: &Value) -> Result<IR, Misread>
    ensures { ReadWhere (is_filter (view value.now)) (IsNode (view value.now)) result }
{
    let mut members = Members::of(value)?;
    let input = members.field::<u32>(alloc, "input")?;
    members.word("node", "Filter")?;
    let predicate = members.field::<Expr>(alloc, "predicate")?;
    members.end()?;
    Ok(IR::Filter { input, predicate })
}

/// The choice of columns that a value spells.
#[tactic(auto, using(crate::proofs::Shapes::shapes))]
fn projection_of(alloc: Global, value: &Value) -> Result<IR, Misread>
    ensures { ReadWhere (is_projection (view value.now)) (IsNode (view value.now)) result }
{
    let mut members = Members::of(value)?;
    let columns = members.field::<List<Text>>(alloc, "columns")?;
    let input = members.field::<u32>(alloc, "input")?;
    members.word("node", "SimpleProjection")?;
    members.end()?;
    Ok(IR::SimpleProjection { input, columns })
}

/// The selection that a value spells.
#[tactic(auto, using(crate::proofs::Formulas::formula_lists))]
fn select_of(alloc: Global, value: &Value) -> Result<IR, Misread>
    ensures { ReadWhere (is_exprs (codes "Select") (view value.now))
        (IsNode (view value.now)) result }
{
    let mut members = Members::of(value)?;
    let exprs = members.field::<List<NamedExpr>>(alloc, "exprs")?;
    let input = members.field::<u32>(alloc, "input")?;
    members.word("node", "Select")?;
    members.end()?;
    Ok(IR::Select { input, exprs })
}

/// The extension that a value spells.
#[tactic(auto, using(crate::proofs::Formulas::formula_lists))]
fn hstack_of(alloc: Global, value: &Value) -> Result<IR, Misread>
    ensures { ReadWhere (is_exprs (codes "HStack") (view value.now))
        (IsNode (view value.now)) result }
{
    let mut members = Members::of(value)?;
    let exprs = members.field::<List<NamedExpr>>(alloc, "exprs")?;
    let input = members.field::<u32>(alloc, "input")?;
    members.word("node", "HStack")?;
    members.end()?;
    Ok(IR::HStack { input, exprs })
}

/// The unpivot that a value spells.
#[tactic(auto, using(crate::proofs::Shapes::shapes))]
fn unpivot_of(alloc: Global, value: &Value) -> Result<IR, Misread>
    ensures { ReadWhere (is_unpivot (view value.now)) (IsNode (view value.now)) result }
{
    let mut members = Members::of(value)?;
    let index = members.field::<List<Text>>(alloc, "index")?;
    let input = members.field::<u32>(alloc, "input")?;
    members.word("node", "Unpivot")?;
    let on = members.field::<List<Text>>(alloc, "on")?;
    let value = members.field::<Text>(alloc, "value")?;
    let variable = members.field::<Text>(alloc, "variable")?;
    members.end()?;
    let function = FunctionIR::Unpivot {
        on,
        index,
        variable,
        value,
    };
    Ok(IR::MapFunction { input, function })
}

/// The renaming that a value spells.
fn rename_of(alloc: Global, value: &Value) -> Result<IR, Misread>
    ensures { ReadWhere (is_rename (view value.now)) (IsNode (view value.now)) result }
{
    let mut members = Members::of(value)?;
    let input = members.field::<u32>(alloc, "input")?;
    members.word("node", "Rename")?;
    let pairs = members.field::<List<RenamePair>>(alloc, "pairs")?;
    members.end()?;
    let function = FunctionIR::Rename { pairs };
    Ok(IR::MapFunction { input, function })
}

/// The union that a value spells.
fn union_of(alloc: Global, value: &Value) -> Result<IR, Misread>
    ensures { ReadWhere (is_union (view value.now)) (IsNode (view value.now)) result }
{
    let mut members = Members::of(value)?;
    let inputs = members.field::<List<u32>>(alloc, "inputs")?;
    members.word("node", "Union")?;
    members.end()?;
    Ok(IR::Union { inputs })
}

/// The sort that a value spells.
fn sort_of(alloc: Global, value: &Value) -> Result<IR, Misread>
    ensures { ReadWhere (is_sort (view value.now)) (IsNode (view value.now)) result }
{
    let mut members = Members::of(value)?;
    let by = members.field::<List<Text>>(alloc, "by")?;
    let descending = members.field::<List<bool>>(alloc, "descending")?;
    let input = members.field::<u32>(alloc, "input")?;
    members.word("node", "Sort")?;
    let nulls_last = members.field::<List<bool>>(alloc, "nulls_last")?;
    let slice = members.field::<Option<PlanSlice>>(alloc, "slice")?;
    members.end()?;
    let options = SortOptions {
        descending,
        nulls_last,
        slice,
    };
    Ok(IR::Sort { input, by, options })
}

/// The node of a kind that a value spells.
fn node_of(alloc: Global, kind: Kind, value: &Value) -> Result<IR, Misread>
    ensures { ReadWhere (is_kind kind (view value.now)) (IsNode (view value.now)) result }
{
    match kind {
        Kind::DataFrameScan => scan_of(alloc, value),
        Kind::Filter => filter_of(alloc, value),
        Kind::SimpleProjection => projection_of(alloc, value),
        Kind::Select => select_of(alloc, value),
        Kind::HStack => hstack_of(alloc, value),
        Kind::Unpivot => unpivot_of(alloc, value),
        Kind::Rename => rename_of(alloc, value),
        Kind::Union => union_of(alloc, value),
        Kind::Join => join_of(alloc, value),
        Kind::Sort => sort_of(alloc, value),
    }
}

impl Spelled for IR {
    ghost spelling = { ir_spelling };

    ghost fits = { IrFits };

    ghost shape = { is_node };

    fn read(alloc: Global, value: &Value) -> Result<IR, Misread> {
        let kind = kind_of(value)?;
        node_of(alloc, kind, value)
    }
}
