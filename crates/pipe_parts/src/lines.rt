//! The line that tells how a plan may be cut.

ghost use Rattle.std.specs.Prelude.{◌≡◌, IfOk};
ghost use Rattle.pipe_plan.specs.Plan.{plan_of};
ghost use Rattle.pipe_job.specs.Line.{line_of};
ghost use Rattle.pipe_value.specs.View.{view};
ghost use Rattle.pipe_parts.specs.PartsLines.{IsPartsLine, obstacle_spelling, one_spelling, parts_spelling, rows_spelling, why_text};

use crate::found::Found;
use crate::gathers::gather_value;
use crate::least::{least_choice, parts_root, whole_scans};
use crate::members::{put, put_number, put_word};
use crate::obstacles::{Obstacle, Why, find_obstacle};
use crate::scans::{cut_values, first_values};
use crate::wish::ScanCut;
use pipe_check::CheckedPlan;
use pipe_spell::line_of_value;
use pipe_value::Value;
use serde_json::Number;
use std::alloc::{AllocError, Global};
use std::collections::BTreeMap;

/// How many rows each part has to have; null from 2^64 on.
fn rows_value(rows: u128) -> Value
    ensures { view result ≡ rows_spelling rows }
{
    match Number::from_u128(rows) {
        Some(number) => Value::Number(number),
        None => Value::Null,
    }
}

/// Why a node can't be had as it is wished.
fn why_text(why: Why) -> &'static str
    ensures { result.now ≡ why_text why }
{
    match why {
        Why::SlicedSort => "sort with a slice",
        Why::KeysNotColumns => "full join whose keys aren't columns",
        Why::FullUnderKey => "full join under a key",
        Why::NoPlainColumn => "key isn't a column of the input",
    }
}

/// The node at which a plan can't be had in parts, and why.
fn obstacle_value(alloc: Global, found: Obstacle) -> Result<Value, AllocError>
    ensures { IfOk result (λ value. view value ≡ obstacle_spelling found) }
{
    let mut members = BTreeMap::new(alloc);
    put_word(alloc, &mut members, "why", why_text(found.why))?;
    put_number(alloc, &mut members, "node", found.node)?;
    Ok(Value::Object(members))
}

/// A plan that can be had in parts.
fn parts_value(alloc: Global, plan: &CheckedPlan, found: &Found) -> Result<Value, AllocError>
    ensures { IfOk result (λ value. view value
        ≡ parts_spelling (plan_of plan.now.arena) plan.now.root found.now.cuts found.now.whole) }
{
    let gather = gather_value(alloc, plan)?;
    let scans = cut_values(alloc, plan, found.cuts.as_slice())?;
    let mut members = BTreeMap::new(alloc);
    put(alloc, &mut members, "whole_rows", rows_value(found.whole))?;
    put(alloc, &mut members, "scans", scans)?;
    put_number(alloc, &mut members, "root", parts_root(plan))?;
    put(alloc, &mut members, "refused", Value::Null)?;
    put(alloc, &mut members, "parts", Value::Bool(true))?;
    put(alloc, &mut members, "gather", gather)?;
    Ok(Value::Object(members))
}

/// A plan that can't.
fn one_value(
    alloc: Global,
    plan: &CheckedPlan,
    all: &[ScanCut],
    found: Obstacle,
) -> Result<Value, AllocError>
    ensures { IfOk result (λ value. view value
        ≡ one_spelling (plan_of plan.now.arena) plan.now.root all.now found) }
{
    let scans = first_values(alloc, plan, all)?;
    let refused = obstacle_value(alloc, found)?;
    let mut members = BTreeMap::new(alloc);
    put_number(alloc, &mut members, "whole_rows", 0)?;
    put(alloc, &mut members, "scans", scans)?;
    put_number(alloc, &mut members, "root", plan.root())?;
    put(alloc, &mut members, "refused", refused)?;
    put(alloc, &mut members, "parts", Value::Bool(false))?;
    put(alloc, &mut members, "gather", Value::Null)?;
    Ok(Value::Object(members))
}

/// The line of a plan that can be had in parts.
fn line_in_parts(alloc: Global, plan: &CheckedPlan, found: &Found) -> Result<Vec<u8>, AllocError>
    ensures { IfOk result (λ line. line.items ≡ line_of
        (parts_spelling (plan_of plan.now.arena) plan.now.root found.now.cuts found.now.whole)) }
{
    let value = parts_value(alloc, plan, found)?;
    line_of_value(alloc, &value)
}

/// The line of a plan that can't.
fn line_in_one(
    alloc: Global,
    plan: &CheckedPlan,
    all: &[ScanCut],
    found: Obstacle,
) -> Result<Vec<u8>, AllocError>
    ensures { IfOk result (λ line. line.items ≡ line_of
        (one_spelling (plan_of plan.now.arena) plan.now.root all.now found)) }
{
    let value = one_value(alloc, plan, all, found)?;
    line_of_value(alloc, &value)
}

/// The line that tells how the scans of a plan may be cut, over the rows of each frame.
#[tactic(auto, using(crate::proofs::Told::told_in_one))]
pub fn parts_line(alloc: Global, plan: &CheckedPlan, sizes: &[u64]) -> Result<Vec<u8>, AllocError>
    ensures { IfOk result (λ line.
        IsPartsLine (plan_of plan.now.arena) plan.now.root sizes.now line.items) }
{
    plan.known_well_formed();
    match least_choice(alloc, plan, sizes)? {
        Some(found) => line_in_parts(alloc, plan, &found),
        None => match find_obstacle(alloc, plan)? {
            Some(found) => {
                let all = whole_scans(alloc, plan)?;
                line_in_one(alloc, plan, all.as_slice(), found)
            }
            None => unreachable!(),
        },
    }
}
