//! How scans are cut, as values.

ghost use Rattle.std.specs.Prelude.{◌≡◌, codes, map, IfOk};
ghost use Rattle.pipe_plan.specs.Node.{node_of};
ghost use Rattle.pipe_plan.specs.Plan.{plan_of};
ghost use Rattle.pipe_plan.specs.Under.{node_at};
ghost use Rattle.pipe_parts.specs.Parts.{frame_in};
ghost use Rattle.pipe_value.specs.View.{view};
ghost use Rattle.pipe_job.specs.Spelling.{list};
ghost use Rattle.pipe_parts.specs.PartsLines.{cut_spelling, first_spelling, key_spelling, scan_spelling, word_spelling};

use crate::members::{put, put_number, put_word};
use crate::wish::{ScanCut, Wish};
use pipe_check::CheckedPlan;
use pipe_plan::IR;
use pipe_schema::{List, Text};
use pipe_spell::Spell;
use pipe_value::Value;
use std::alloc::{AllocError, Global};
use std::collections::BTreeMap;

/// The frame that a node reads; 0 where it reads none.
fn frame_of(node: &IR) -> u32
    ensures { result ≡ frame_in (node_of node.now) }
{
    match node {
        IR::DataFrameScan { frame, .. } => *frame,
        _ => 0,
    }
}

/// The frame that the node of a number reads.
fn frame_at_number(nodes: &[IR], scan: u32) -> u32
    ensures { result ≡ frame_in (node_at (map node_of nodes.now) scan) }
{
    match nodes.get(scan as usize) {
        Some(node) => frame_of(node),
        None => 0,
    }
}

/// The frame that a node of a plan reads.
fn frame_at(plan: &CheckedPlan, scan: u32) -> u32
    ensures { result ≡ frame_in (node_at (plan_of plan.now.arena).nodes scan) }
{
    frame_at_number(plan.arena().nodes.as_slice(), scan)
}

/// A scan whose cut is one word.
fn word_value(alloc: Global, word: &str, frame: u32, scan: u32) -> Result<Value, AllocError>
    ensures { IfOk result (λ value. view value ≡ word_spelling word.now frame scan) }
{
    let mut members = BTreeMap::new(alloc);
    put_number(alloc, &mut members, "node", scan)?;
    put_number(alloc, &mut members, "frame", frame)?;
    put_word(alloc, &mut members, "cut", word)?;
    Ok(Value::Object(members))
}

/// A scan that is cut by a key.
fn key_value(
    alloc: Global,
    key: u32,
    columns: &List<Text>,
    frame: u32,
    scan: u32,
) -> Result<Value, AllocError>
    ensures { IfOk result (λ value. view value ≡ key_spelling key columns.now frame scan) }
{
    let names = columns.spell(alloc)?;
    let mut members = BTreeMap::new(alloc);
    put_number(alloc, &mut members, "node", scan)?;
    put_number(alloc, &mut members, "key", key)?;
    put_number(alloc, &mut members, "frame", frame)?;
    put_word(alloc, &mut members, "cut", "key")?;
    put(alloc, &mut members, "columns", names)?;
    Ok(Value::Object(members))
}

/// A scan that is cut.
fn cut_value(alloc: Global, cut: &Wish, frame: u32, scan: u32) -> Result<Value, AllocError>
    ensures { IfOk result (λ value. view value ≡ cut_spelling cut.now frame scan) }
{
    match cut {
        Wish::Split => word_value(alloc, "split", frame, scan),
        Wish::Key { key, columns } => key_value(alloc, *key, columns, frame, scan),
        Wish::Whole => word_value(alloc, "whole", frame, scan),
    }
}

/// The scans of a plan, each as it is cut.
pub(crate) fn cut_values(
    alloc: Global,
    plan: &CheckedPlan,
    cuts: &[ScanCut],
) -> Result<Value, AllocError>
    ensures { IfOk result (λ value.
        view value ≡ list (scan_spelling (plan_of plan.now.arena)) cuts.now) }
{
    let mut values = Vec::with_capacity(alloc, cuts.len())?;
    for one in cuts {
        values.push(cut_value(alloc, &one.cut, frame_at(plan, one.scan), one.scan)?)?;
    }
    Ok(Value::Array(values))
}

/// The scans of a plan of which the first part has all rows.
pub(crate) fn first_values(
    alloc: Global,
    plan: &CheckedPlan,
    cuts: &[ScanCut],
) -> Result<Value, AllocError>
    ensures { IfOk result (λ value.
        view value ≡ list (first_spelling (plan_of plan.now.arena)) cuts.now) }
{
    let mut values = Vec::with_capacity(alloc, cuts.len())?;
    for one in cuts {
        values.push(word_value(alloc, "first", frame_at(plan, one.scan), one.scan)?)?;
    }
    Ok(Value::Array(values))
}
