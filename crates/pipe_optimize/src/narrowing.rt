//! Nodes that make the needed columns alone.

ghost use Rattle.std.specs.Prelude.{◌≡◌, ◌<◌, ◌++◌, ◌∷◌, [], true, map, filter, length, IfOk, OnOk};
ghost use Rattle.std.specs.List.{AllByRecursion};
ghost use Rattle.pipe_schema.specs.Schema.{has_name};
ghost use Rattle.pipe_expr.specs.Formula.{named_formula_of};
ghost use Rattle.pipe_plan.specs.Node.{node_of};
ghost use Rattle.pipe_rules.specs.Needs.{needed_exprs};
ghost use Rattle.pipe_optimize.specs.Lists.{names_at as kept_names_at};
ghost use Rattle.pipe_optimize.specs.Sides.{has_existing, narrow_function_by, narrow_by};

use crate::name_lists::NameLists;
use crate::names::{has, kept_among, names_at};
use crate::outputs::scanned_names;
use pipe_check::NameIndex;
use pipe_expr::{FunctionIR, NamedExpr, RenamePair};
use pipe_frame::DataFrame;
use pipe_plan::IR;
use pipe_schema::{List, Text};
use std::alloc::{AllocError, Global};

/// Adds an expression, where its name is needed.
fn push_needed(
    kept: &mut List<NamedExpr>,
    needed: &NameIndex<Text>,
    expr: NamedExpr,
) -> Result<(), AllocError>
    ensures { OnOk result (map named_formula_of kept.new ≡ map named_formula_of kept.old
        ++ needed_exprs (has_name needed.now) (named_formula_of expr ∷ [])) }
{
    if has(needed, &expr.name) {
        kept.push(expr)?;
    }
    Ok(())
}

/// The expressions under needed names.
fn kept_exprs(
    alloc: Global,
    needed: &NameIndex<Text>,
    exprs: List<NamedExpr>,
) -> Result<List<NamedExpr>, AllocError>
    ensures { IfOk result (λ kept. map named_formula_of kept
        ≡ needed_exprs (has_name needed.now) (map named_formula_of exprs)) }
{
    let mut kept = List::new(alloc);
    for expr in exprs.into_vec() {
        push_needed(&mut kept, needed, expr)?;
    }
    Ok(kept)
}

/// The expressions under needed names, which are looked up.
fn needed_only(
    alloc: Global,
    needed: &[Text],
    exprs: List<NamedExpr>,
) -> Result<List<NamedExpr>, AllocError>
    ensures { IfOk result (λ kept. map named_formula_of kept
        ≡ needed_exprs (has_name needed.now) (map named_formula_of exprs)) }
{
    let needed = NameIndex::of(alloc, needed)?;
    kept_exprs(alloc, &needed, exprs)
}

/// Where a name stands among some from a place on, else their number.
#[tactic(auto, using(crate::proofs::Shared::place_rules))]
fn place_from(names: &[Text], start: usize, name: &Text) -> usize
    ensures { result < length names.now → has_name names.now name.now ≡ true }
{
    for place in start..names.len() {
        if names[place].is_same(name) {
            return place;
        }
    }
    names.len()
}

/// Whether some names have each renamed column, in the order of the renamings.
fn has_renamed(names: &[Text], pairs: &[RenamePair]) -> bool
    ensures { result ≡ true
        → AllByRecursion (λ pair. has_existing names.now pair ≡ true) pairs.now }
{
    let mut next = 0;
    for pair in pairs {
        let place = place_from(names, next, &pair.existing);
        if place >= names.len() {
            return false;
        }
        next = place + 1;
    }
    true
}

/// Adds a renaming, where its column is there.
fn push_existing(
    kept: &mut List<RenamePair>,
    names: &NameIndex<Text>,
    pair: RenamePair,
) -> Result<(), AllocError>
    ensures { OnOk result
        (kept.new ≡ kept.old ++ filter (has_existing names.now) (pair ∷ [])) }
{
    if has(names, &pair.existing) {
        kept.push(pair)?;
    }
    Ok(())
}

/// The renamings of columns that are there.
fn kept_pairs(
    alloc: Global,
    names: &NameIndex<Text>,
    pairs: List<RenamePair>,
) -> Result<List<RenamePair>, AllocError>
    ensures { IfOk result (λ kept. kept ≡ filter (has_existing names.now) pairs) }
{
    let mut kept = List::new(alloc);
    for pair in pairs.into_vec() {
        push_existing(&mut kept, names, pair)?;
    }
    Ok(kept)
}

/// The renamings of columns that are there. Where all are, which shows at once, no name is looked up.
fn narrow_pairs(
    alloc: Global,
    names: &[Text],
    pairs: List<RenamePair>,
) -> Result<List<RenamePair>, AllocError>
    ensures { IfOk result (λ kept. kept ≡ filter (has_existing names.now) pairs) }
{
    if has_renamed(names, pairs.as_slice()) {
        Ok(pairs)
    } else {
        let names = NameIndex::of(alloc, names)?;
        let kept = kept_pairs(alloc, &names, pairs)?;
        Ok(kept)
    }
}

/// A function over an input with these names.
fn narrow_function(
    alloc: Global,
    names: &[Text],
    function: FunctionIR,
) -> Result<FunctionIR, AllocError>
    ensures { IfOk result (λ made. made ≡ narrow_function_by names.now function) }
{
    match function {
        FunctionIR::Unpivot {
            on,
            index,
            variable,
            value,
        } => Ok(FunctionIR::Unpivot {
            on,
            index,
            variable,
            value,
        }),
        FunctionIR::Rename { pairs } => Ok(FunctionIR::Rename {
            pairs: narrow_pairs(alloc, names, pairs)?,
        }),
    }
}

/// A node that makes the needed columns alone, over the names of the nodes below it.
pub(crate) fn narrow(
    alloc: Global,
    frames: &[DataFrame],
    lists: &NameLists,
    needed: &[Text],
    node: IR,
) -> Result<IR, AllocError>
    ensures { IfOk result (λ made. node_of made
        ≡ narrow_by frames.now (kept_names_at lists.now) needed.now (node_of node)) }
{
    match node {
        IR::DataFrameScan { frame, columns } => {
            let names = scanned_names(alloc, frames, frame, &columns)?;
            Ok(IR::DataFrameScan {
                frame,
                columns: Some(kept_among(alloc, names.as_slice(), needed)?),
            })
        }
        IR::SimpleProjection { input, columns } => Ok(IR::SimpleProjection {
            input,
            columns: kept_among(alloc, columns.as_slice(), needed)?,
        }),
        IR::Select { input, exprs } => Ok(IR::Select {
            input,
            exprs: needed_only(alloc, needed, exprs)?,
        }),
        IR::HStack { input, exprs } => Ok(IR::HStack {
            input,
            exprs: needed_only(alloc, needed, exprs)?,
        }),
        IR::MapFunction { input, function } => Ok(IR::MapFunction {
            input,
            function: narrow_function(alloc, names_at(lists, input), function)?,
        }),
        IR::Filter { input, predicate } => Ok(IR::Filter { input, predicate }),
        IR::Union { inputs } => Ok(IR::Union { inputs }),
        IR::Join {
            left,
            right,
            left_on,
            right_on,
            options,
        } => Ok(IR::Join {
            left,
            right,
            left_on,
            right_on,
            options,
        }),
        IR::Sort { input, by, options } => Ok(IR::Sort { input, by, options }),
    }
}
