//! The rows of a plan's nodes, node by node upwards.

ghost use Rattle.std.specs.Prelude.{◌≡◌, ◌++◌, [], length, map, IfOk, OnOk};
ghost use Rattle.std.specs.List.{flat_map};
ghost use Rattle.pipe_rows.specs.SortOrder.{sorted};
ghost use Rattle.pipe_expr.specs.Formula.{named_formula_of};
ghost use Rattle.pipe_expr.specs.Projections.{row_named, select_row, hstack_row};
ghost use Rattle.pipe_plan.specs.Node.{node_of};
ghost use Rattle.pipe_plan.specs.Plan.{plan_of};
ghost use Rattle.pipe_plan.specs.Schemas.{frame_at};
ghost use Rattle.pipe_plan.specs.PlanRows.{scan_rows, sort_keys, slice_rows, node_rows, rows_at};
ghost use Rattle.pipe_plan.specs.PlanRows.{rows_of as rows_of_plan};
ghost use Rattle.pipe_plain.specs.Tables.{table, at_place};

use crate::node_schemas::{fields_at, fields_of_node, frame_fields, sides_over};
use crate::projections::{filtered, named_row, rows_of_function, selected_row, stacked_row};
use crate::sorting::{copied_rows, kept_slice, sorted_rows};
use pipe_expr::NamedExpr;
use pipe_frame::{DataFrame, Row};
use pipe_pairs::joined_rows;
use pipe_plan::{Arena, IR, SortOptions};
use pipe_schema::{Field, List, Text, TryClone};
use std::alloc::{AllocError, Global};

/// The rows of a node, none where the node isn't there yet.
fn rows_below(tables: &[List<Row>], n: u32) -> &[Row]
    ensures { result.now ≡ at_place [] tables.now n }
{
    match tables.get(n as usize) {
        Some(rows) => rows.as_slice(),
        None => &[],
    }
}

/// The schema and the rows of a node that is read.
#[derive(Clone, Copy)]
struct Input<'a> {
    schema: &'a [Field],
    rows: &'a [Row],
}

/// What a node reads from another.
fn input_of<'a>(schemas: &'a [List<Field>], tables: &'a [List<Row>], n: u32) -> Input<'a>
    ensures schema { result.schema.now ≡ at_place [] schemas.now n }
    ensures rows { result.rows.now ≡ at_place [] tables.now n }
{
    Input {
        schema: fields_at(schemas, n),
        rows: rows_below(tables, n),
    }
}

/// The rows of a frame.
fn rows_of_frame(alloc: Global, frame: &DataFrame) -> Result<List<Row>, AllocError>
    ensures { IfOk result (λ rows. rows ≡ frame.now.rows) }
{
    let mut rows = List::new(alloc);
    for i in 0..frame.height() {
        rows.push(frame.row(i)?)?;
    }
    Ok(rows)
}

/// The rows of the frame of a number, none where there is no such frame.
fn frame_rows(alloc: Global, frames: &[DataFrame], frame: u32) -> Result<List<Row>, AllocError>
    ensures { IfOk result (λ rows. rows ≡ (frame_at frames.now frame).rows) }
{
    match frames.get(frame as usize) {
        Some(frame) => Ok(rows_of_frame(alloc, frame)?),
        None => Ok(List::new(alloc)),
    }
}

/// Of each row the cells named.
pub fn named_rows(
    alloc: Global,
    schema: &[Field],
    names: &[Text],
    rows: &[Row],
) -> Result<List<Row>, AllocError>
    ensures { IfOk result (λ made. made ≡ map (row_named schema.now names.now) rows.now) }
{
    let mut made = List::new(alloc);
    for row in rows {
        made.push(named_row(alloc, schema, names, row.as_slice())?)?;
    }
    Ok(made)
}

/// The rows of a scan.
pub fn scanned_rows(
    alloc: Global,
    frames: &[DataFrame],
    frame: u32,
    columns: &Option<List<Text>>,
) -> Result<List<Row>, AllocError>
    ensures { IfOk result (λ rows. rows ≡ scan_rows (frame_at frames.now frame) columns.now) }
{
    let rows = frame_rows(alloc, frames, frame)?;
    match columns {
        None => Ok(rows),
        Some(names) => Ok(named_rows(
            alloc,
            frame_fields(frames, frame),
            names.as_slice(),
            rows.as_slice(),
        )?),
    }
}

/// Of each row the cells of expressions.
pub fn selected_rows(
    alloc: Global,
    schema: &[Field],
    exprs: &[NamedExpr],
    rows: &[Row],
) -> Result<List<Row>, AllocError>
    ensures { let formulas = map named_formula_of exprs.now in
        IfOk result (λ made. made ≡ map (select_row schema.now formulas) rows.now) }
{
    let mut made = List::new(alloc);
    for row in rows {
        made.push(selected_row(alloc, schema, exprs, row.as_slice())?)?;
    }
    Ok(made)
}

/// Each row with the cells of expressions.
pub fn stacked_rows(
    alloc: Global,
    schema: &[Field],
    exprs: &[NamedExpr],
    rows: &[Row],
) -> Result<List<Row>, AllocError>
    ensures { let formulas = map named_formula_of exprs.now in
        IfOk result (λ made. made ≡ map (hstack_row schema.now formulas) rows.now) }
{
    let mut made = List::new(alloc);
    for row in rows {
        made.push(stacked_row(alloc, schema, exprs, row.as_slice())?)?;
    }
    Ok(made)
}

/// Adds copies of some rows.
pub fn push_rows(made: &mut List<Row>, rows: &[Row]) -> Result<(), AllocError>
    ensures { OnOk result (made.new ≡ made.old ++ rows.now) }
{
    for row in rows {
        made.push(row.try_clone()?)?;
    }
    Ok(())
}

/// The rows of some nodes, one node after another.
fn united_rows(alloc: Global, tables: &[List<Row>], inputs: &[u32]) -> Result<List<Row>, AllocError>
    ensures { IfOk result (λ made. made ≡ flat_map (at_place [] tables.now) inputs.now) }
{
    let mut made = List::new(alloc);
    for input in inputs {
        push_rows(&mut made, rows_below(tables, *input))?;
    }
    Ok(made)
}

/// The rows of a sort.
pub fn sliced_rows(
    alloc: Global,
    schema: &[Field],
    by: &[Text],
    options: &SortOptions,
    rows: &[Row],
) -> Result<List<Row>, AllocError>
    ensures { let keys = sort_keys schema.now by.now options.now in
        IfOk result (λ made. made ≡ slice_rows options.now.slice (sorted keys rows.now)) }
{
    let rows = sorted_rows(alloc, schema, by, options, rows)?;
    Ok(copied_rows(alloc, kept_slice(&options.slice, rows.as_slice()))?)
}

/// The rows of a node over the schemas and the rows of the nodes below it.
fn rows_of_node(
    alloc: Global,
    frames: &[DataFrame],
    schemas: &[List<Field>],
    tables: &[List<Row>],
    node: &IR,
) -> Result<List<Row>, AllocError>
    ensures { let schema = at_place [] schemas.now in
        let below = at_place [] tables.now in
        IfOk result (λ rows. rows ≡ node_rows frames.now schema below (node_of node.now)) }
{
    match node {
        IR::DataFrameScan { frame, columns } => scanned_rows(alloc, frames, *frame, columns),
        IR::Filter { input, predicate } => {
            let input = input_of(schemas, tables, *input);
            filtered(alloc, predicate, input.schema, input.rows)
        }
        IR::SimpleProjection { input, columns } => {
            let input = input_of(schemas, tables, *input);
            named_rows(alloc, input.schema, columns.as_slice(), input.rows)
        }
        IR::Select { input, exprs } => {
            let input = input_of(schemas, tables, *input);
            selected_rows(alloc, input.schema, exprs.as_slice(), input.rows)
        }
        IR::HStack { input, exprs } => {
            let input = input_of(schemas, tables, *input);
            stacked_rows(alloc, input.schema, exprs.as_slice(), input.rows)
        }
        IR::MapFunction { input, function } => {
            let input = input_of(schemas, tables, *input);
            rows_of_function(alloc, function, input.schema, input.rows)
        }
        IR::Union { inputs } => united_rows(alloc, tables, inputs.as_slice()),
        IR::Join {
            left,
            right,
            left_on,
            right_on,
            options,
        } => {
            let sides = sides_over(schemas, *left, *right, left_on, right_on, options);
            let left = rows_below(tables, *left);
            joined_rows(alloc, &sides, left, rows_below(tables, *right))
        }
        IR::Sort { input, by, options } => {
            let input = input_of(schemas, tables, *input);
            sliced_rows(alloc, input.schema, by.as_slice(), options, input.rows)
        }
    }
}

/// The rows of each node of a plan.
pub fn plan_rows(alloc: Global, arena: &Arena) -> Result<List<List<Row>>, AllocError>
    ensures { let rows_of_each = rows_at (plan_of arena.now) in
        IfOk result (λ tables. tables ≡ table [] rows_of_each (length arena.now.nodes)) }
{
    let mut schemas = List::new(alloc);
    let mut tables = List::new(alloc);
    let frames = arena.frames.as_slice();
    for node in arena.nodes.as_slice() {
        let rows = rows_of_node(alloc, frames, schemas.as_slice(), tables.as_slice(), node)?;
        let fields = fields_of_node(alloc, frames, schemas.as_slice(), node)?;
        tables.push(rows)?;
        schemas.push(fields)?;
    }
    Ok(tables)
}

/// The rows of a node of a plan.
pub fn rows(alloc: Global, arena: &Arena, root: u32) -> Result<List<Row>, AllocError>
    ensures { IfOk result (λ made. made ≡ rows_of_plan (plan_of arena.now) root) }
{
    let tables = plan_rows(alloc, arena)?;
    Ok(copied_rows(alloc, rows_below(tables.as_slice(), root))?)
}
