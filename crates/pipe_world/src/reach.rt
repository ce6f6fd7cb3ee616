//! Which nodes the rows of a node come to.

ghost use Rattle.std.specs.Prelude.{◌≡◌, ◌==◌, ◌||◌, false, IfOk};
ghost use Rattle.std.specs.List.{list_any};
ghost use Rattle.pipe_events.specs.Stages.{feeds, reach_at};
ghost use Rattle.pipe_plain.specs.Tables.{table, at_place};
ghost use Rattle.pipe_world.specs.StageValues.{stage_value};
ghost use Rattle.pipe_world.specs.Staged.{staged};

use crate::plan::StagedPlan;
use crate::stage::Stage;
use pipe_schema::List;
use std::alloc::{AllocError, Global};

/// The mark of a node, false where there is none.
pub fn is_marked(marks: &[bool], n: usize) -> bool
    ensures { result ≡ at_place false marks.now n }
{
    match marks.get(n) {
        Some(mark) => *mark,
        None => false,
    }
}

/// Whether one of some nodes is marked.
fn is_any_marked(marks: &[bool], nodes: &[u32]) -> bool
    ensures { result ≡ list_any (at_place false marks.now) nodes.now }
{
    for n in nodes {
        if is_marked(marks, *n as usize) {
            return true;
        }
    }
    false
}

/// Whether rows of a marked node pass through a node.
fn is_fed(marks: &[bool], stage: Stage) -> bool
    ensures { result ≡ list_any (at_place false marks.now) (feeds (stage_value stage.entry)) }
{
    match stage {
        Stage::Scan(_) => false,
        Stage::Each { input, .. } => is_marked(marks, input as usize),
        Stage::Union(inputs) => is_any_marked(marks, inputs),
        Stage::Sort { .. } => false,
        Stage::Joined(join) => is_marked(marks, join.probe as usize),
    }
}

/// Whether a node is another, or is fed.
fn is_reached(k: usize, n: usize, fed: bool) -> bool
    ensures { result ≡ ((k == n) || fed) }
{
    k == n || fed
}

/// For each node, whether the rows of a node come to it.
pub fn reach_marks(alloc: Global, plan: &StagedPlan, n: usize) -> Result<List<bool>, AllocError>
    ensures { let at = reach_at (staged plan.now) n in
        IfOk result (λ marks. marks ≡ table false at (staged plan.now).size) }
{
    let mut marks = List::new(alloc);
    for k in 0..plan.len() {
        let fed = is_fed(marks.as_slice(), plan.stage(k));
        let reached = is_reached(k, n, fed);
        marks.push(reached)?;
    }
    Ok(marks)
}
