//! Nodes as values.

ghost use Rattle.std.specs.Prelude.{◌≡◌, ⊤, IfOk, OnOk};
ghost use Rattle.pipe_expr.specs.Formula.{formula_of, named_formulas_of};
ghost use Rattle.pipe_expr.specs.declared.join_words.FunctionIR.TheVariants as function;
ghost use Rattle.pipe_plan.specs.Node.{DataFrameScan, Filter, HStack, MapFunction, Select, SimpleProjection, Sort, Union};
ghost use Rattle.pipe_value.specs.View.{view};
ghost use Rattle.pipe_job.specs.NodeSpelling.{Fits32, SliceFits, function_spelling, ir_spelling, node_spelling, pair_spelling, slice_spelling, sort_spelling};
ghost use Rattle.pipe_spell.specs.Ranges.{IrInRange, NodeInRange};

use crate::joins::join_value;
use crate::lists::couple;
use crate::object::Object;
use crate::spell::Spell;
use pipe_expr::{Expr, FunctionIR, NamedExpr, RenamePair};
use pipe_plan::{IR, PlanSlice, SortOptions};
use pipe_schema::{List, Text};
use pipe_value::Value;
use serde_json::Number;
use std::alloc::{AllocError, Global};

impl Spell for RenamePair {
    ghost spelling = { pair_spelling };

    ghost fits = { λ _. ⊤ };

    fn spell(&self, alloc: Global) -> Result<Value, AllocError> {
        let mut object = Object::new(alloc);
        object.field(alloc, "new", &self.new_name)?;
        object.field(alloc, "existing", &self.existing)?;
        Ok(object.into_value())
    }
}

impl Spell for PlanSlice {
    ghost spelling = { slice_spelling };

    ghost fits = { SliceFits };

    fn spell(&self, alloc: Global) -> Result<Value, AllocError> {
        let offset = Value::Number(Number::from(self.offset));
        let len = Value::Number(Number::from(self.len));
        couple(alloc, offset, len)
    }
}

/// The value that spells a scan.
fn scan_value(alloc: Global, frame: u32, columns: &Option<List<Text>>) -> Result<Value, AllocError>
    ensures spelled { IfOk result (λ value.
        view value ≡ node_spelling (DataFrameScan frame columns.now)) }
    ensures fits { OnOk result (NodeInRange (DataFrameScan frame columns.now)) }
{
    let mut object = Object::new(alloc);
    object.word(alloc, "node", "DataFrameScan")?;
    object.field(alloc, "frame", &frame)?;
    object.field(alloc, "columns", columns)?;
    Ok(object.into_value())
}

/// The value that spells a filter.
fn filter_value(alloc: Global, input: u32, predicate: &Expr) -> Result<Value, AllocError>
    ensures spelled { IfOk result (λ value.
        view value ≡ node_spelling (Filter input (formula_of predicate.now))) }
    ensures fits { OnOk result (NodeInRange (Filter input (formula_of predicate.now))) }
{
    let mut object = Object::new(alloc);
    object.field(alloc, "predicate", predicate)?;
    object.word(alloc, "node", "Filter")?;
    object.field(alloc, "input", &input)?;
    Ok(object.into_value())
}

/// The value that spells a choice of columns.
fn projection_value(alloc: Global, input: u32, columns: &List<Text>) -> Result<Value, AllocError>
    ensures spelled { IfOk result (λ value.
        view value ≡ node_spelling (SimpleProjection input columns.now)) }
    ensures fits { OnOk result (NodeInRange (SimpleProjection input columns.now)) }
{
    let mut object = Object::new(alloc);
    object.word(alloc, "node", "SimpleProjection")?;
    object.field(alloc, "input", &input)?;
    object.field(alloc, "columns", columns)?;
    Ok(object.into_value())
}

/// The value that spells a selection.
#[tactic(auto, using(pipe_job::proofs::Formulas::formula_lists, crate::proofs::RangeLists::range_lists))]
fn select_value(alloc: Global, input: u32, exprs: &List<NamedExpr>) -> Result<Value, AllocError>
    ensures spelled { IfOk result (λ value.
        view value ≡ node_spelling (Select input (named_formulas_of exprs.now))) }
    ensures fits { OnOk result (NodeInRange (Select input (named_formulas_of exprs.now))) }
{
    let mut object = Object::new(alloc);
    object.word(alloc, "node", "Select")?;
    object.field(alloc, "input", &input)?;
    object.field(alloc, "exprs", exprs)?;
    Ok(object.into_value())
}

/// The value that spells an extension.
#[tactic(auto, using(pipe_job::proofs::Formulas::formula_lists, crate::proofs::RangeLists::range_lists))]
fn hstack_value(alloc: Global, input: u32, exprs: &List<NamedExpr>) -> Result<Value, AllocError>
    ensures spelled { IfOk result (λ value.
        view value ≡ node_spelling (HStack input (named_formulas_of exprs.now))) }
    ensures fits { OnOk result (NodeInRange (HStack input (named_formulas_of exprs.now))) }
{
    let mut object = Object::new(alloc);
    object.word(alloc, "node", "HStack")?;
    object.field(alloc, "input", &input)?;
    object.field(alloc, "exprs", exprs)?;
    Ok(object.into_value())
}

/// The value that spells a renaming.
fn rename_value(alloc: Global, input: u32, pairs: &List<RenamePair>) -> Result<Value, AllocError>
    ensures spelled { IfOk result (λ value.
        view value ≡ function_spelling input (function.Rename pairs.now)) }
    ensures fits { OnOk result (Fits32 input) }
{
    let mut object = Object::new(alloc);
    object.field(alloc, "pairs", pairs)?;
    object.word(alloc, "node", "Rename")?;
    object.field(alloc, "input", &input)?;
    Ok(object.into_value())
}

/// The value that spells an unpivot.
fn unpivot_value(
    alloc: Global,
    input: u32,
    on: &List<Text>,
    index: &List<Text>,
    variable: &Text,
    value: &Text,
) -> Result<Value, AllocError>
    ensures spelled { IfOk result (λ made. view made ≡ function_spelling input
        (function.Unpivot on.now index.now variable.now value.now)) }
    ensures fits { OnOk result (Fits32 input) }
{
    let mut object = Object::new(alloc);
    object.field(alloc, "variable", variable)?;
    object.field(alloc, "value", value)?;
    object.field(alloc, "on", on)?;
    object.word(alloc, "node", "Unpivot")?;
    object.field(alloc, "input", &input)?;
    object.field(alloc, "index", index)?;
    Ok(object.into_value())
}

/// The value that spells a function over the rows.
fn function_value(alloc: Global, input: u32, function: &FunctionIR) -> Result<Value, AllocError>
    ensures spelled { IfOk result (λ value. view value ≡ function_spelling input function.now) }
    ensures fits { OnOk result (NodeInRange (MapFunction input function.now)) }
{
    match function {
        FunctionIR::Unpivot {
            on,
            index,
            variable,
            value,
        } => unpivot_value(alloc, input, on, index, variable, value),
        FunctionIR::Rename { pairs } => rename_value(alloc, input, pairs),
    }
}

/// The value that spells a union.
fn union_value(alloc: Global, inputs: &List<u32>) -> Result<Value, AllocError>
    ensures spelled { IfOk result (λ value. view value ≡ node_spelling (Union inputs.now)) }
    ensures fits { OnOk result (NodeInRange (Union inputs.now)) }
{
    let mut object = Object::new(alloc);
    object.word(alloc, "node", "Union")?;
    object.field(alloc, "inputs", inputs)?;
    Ok(object.into_value())
}

/// The value that spells a sort.
fn sort_value(
    alloc: Global,
    input: u32,
    by: &List<Text>,
    options: &SortOptions,
) -> Result<Value, AllocError>
    ensures spelled { IfOk result (λ value. view value ≡ sort_spelling input by.now options.now) }
    ensures fits { OnOk result (NodeInRange (Sort input by.now options.now)) }
{
    let mut object = Object::new(alloc);
    object.field(alloc, "slice", &options.slice)?;
    object.field(alloc, "nulls_last", &options.nulls_last)?;
    object.word(alloc, "node", "Sort")?;
    object.field(alloc, "input", &input)?;
    object.field(alloc, "descending", &options.descending)?;
    object.field(alloc, "by", by)?;
    Ok(object.into_value())
}

impl Spell for IR {
    ghost spelling = { ir_spelling };

    ghost fits = { IrInRange };

    fn spell(&self, alloc: Global) -> Result<Value, AllocError> {
        match self {
            IR::DataFrameScan { frame, columns } => scan_value(alloc, *frame, columns),
            IR::Filter { input, predicate } => filter_value(alloc, *input, predicate),
            IR::SimpleProjection { input, columns } => projection_value(alloc, *input, columns),
            IR::Select { input, exprs } => select_value(alloc, *input, exprs),
            IR::HStack { input, exprs } => hstack_value(alloc, *input, exprs),
            IR::MapFunction { input, function } => function_value(alloc, *input, function),
            IR::Union { inputs } => union_value(alloc, inputs),
            IR::Join {
                left,
                right,
                left_on,
                right_on,
                options,
            } => join_value(alloc, *left, *right, left_on, right_on, options),
            IR::Sort { input, by, options } => sort_value(alloc, *input, by, options),
        }
    }
}
