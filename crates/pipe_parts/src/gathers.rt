//! The plan that gathers what the parts give, as a value.

ghost use Rattle.std.specs.Prelude.{◌≡◌, ◌∷◌, [], None, IfOk};
ghost use Rattle.pipe_plan.specs.Node.{DataFrameScan, Sort};
ghost use Rattle.pipe_plan.specs.Plan.{plan_of};
ghost use Rattle.pipe_plan.specs.Under.{node_at};
ghost use Rattle.pipe_parts.specs.Parts.{gather_nodes};
ghost use Rattle.pipe_value.specs.View.{view};
ghost use Rattle.pipe_job.specs.NodeSpelling.{node_spelling};
ghost use Rattle.pipe_job.specs.Spelling.{list};
ghost use Rattle.pipe_parts.specs.PartsLines.{nodes_spelling};

use crate::least::node_of_plan;
use pipe_check::CheckedPlan;
use pipe_plan::{IR, SortOptions};
use pipe_schema::{List, Text, TryClone};
use pipe_spell::Spell;
use pipe_value::Value;
use std::alloc::{AllocError, Global};

/// A scan of the parts' rows.
fn scan_value(alloc: Global) -> Result<Value, AllocError>
    ensures { IfOk result (λ value. view value ≡ node_spelling (DataFrameScan 0 None)) }
{
    let scan = IR::DataFrameScan {
        frame: 0,
        columns: None,
    };
    scan.spell(alloc)
}

/// A sort of them.
fn sort_value(alloc: Global, by: &List<Text>, options: &SortOptions) -> Result<Value, AllocError>
    ensures { IfOk result (λ value. view value ≡ node_spelling (Sort 0 by.now options.now)) }
{
    let sort = IR::Sort {
        input: 0,
        by: by.try_clone()?,
        options: options.try_clone()?,
    };
    sort.spell(alloc)
}

/// A scan of the parts' rows, and on it a sort.
fn sorted_value(alloc: Global, by: &List<Text>, options: &SortOptions) -> Result<Value, AllocError>
    ensures { IfOk result (λ value. view value
        ≡ list node_spelling (DataFrameScan 0 None ∷ Sort 0 by.now options.now ∷ [])) }
{
    let mut values = Vec::with_capacity(alloc, 2)?;
    values.push(scan_value(alloc)?)?;
    values.push(sort_value(alloc, by, options)?)?;
    Ok(Value::Array(values))
}

/// The plan that gathers what the parts give, or null where the root is no sort.
pub(crate) fn gather_value(alloc: Global, plan: &CheckedPlan) -> Result<Value, AllocError>
    ensures { IfOk result (λ value. view value
        ≡ nodes_spelling (gather_nodes (node_at (plan_of plan.now.arena).nodes plan.now.root))) }
{
    match node_of_plan(plan, plan.root()) {
        IR::Sort { by, options, .. } => sorted_value(alloc, by, options),
        _ => Ok(Value::Null),
    }
}
