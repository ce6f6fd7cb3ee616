//! How many rows each node gave, leg after leg.

ghost use Rattle.std.specs.Prelude.{◌≡◌, ℕ, ◌≤◌, IfErr, OnOk};
ghost use Rattle.pipe_driver.specs.Tables.{number_at};
ghost use Rattle.pipe_run.specs.Dealt.{nodes_in, counts_in};
ghost use Rattle.pipe_run.specs.Lanes.{lane_nodes};
ghost use Rattle.pipe_passage.specs.Passages.{IsUnderWay};
ghost use Rattle.pipe_slots.specs.SinkWords.{sink_words};
ghost use Rattle.pipe_engine.specs.Asked.{stops};
ghost use Rattle.pipe_engine.specs.Carried.{first_node};
ghost use Rattle.pipe_engine.specs.Engine.{IsAdded};
ghost use Rattle.pipe_engine.specs.Refused.{PastLimit};

use pipe_driver::RunError;
use pipe_ops::PExecutionContext;
use pipe_passage::Passage;
use pipe_rows::KeyHasher;
use pipe_run::{Lane, rows_given};
use pipe_slots::PhysSink;

/// The node whose rows a lane's first stage is given, or its sink where it has left all stages.
fn node_given<O, K>(lane: &Lane<O, K>) -> u32
    ensures { result ≡ first_node (lane_nodes lane.now) }
{
    if lane.stages.is_empty() {
        return lane.target.node;
    }
    lane.stages[0].node
}

/// Counts rows of a node besides those of the legs before. `TooMany` where they are past the limit.
#[tactic(auto, using(crate::proofs::Counted::added_past, crate::proofs::Counted::added_at))]
fn add_rows(
    context: &PExecutionContext,
    given: &mut Vec<u64>,
    node: u32,
    rows: u64,
) -> Result<(), RunError>
    requires few { rows ≤ context.now.row_limit }
    requires within { (k : ℕ) → number_at given.old.items k ≤ context.now.row_limit }
    ensures added { OnOk result (IsAdded node rows context.now.row_limit given.old.items
        given.new.items) }
    ensures err { IfErr result (PastLimit node rows context.now.row_limit given.old.items) }
    ensures calm { stops result ≡ 0 }
{
    let place = node as usize;
    if place >= given.len() {
        return Ok(());
    }
    let all = given[place] + rows;
    if all > context.row_limit as u64 {
        return Err(RunError::TooMany(node));
    }
    given[place] = all;
    Ok(())
}

/// Counts the rows that a leg's first stage was given, or its sinks where it has left all stages, at their node.
pub(crate) fn count_first<H: KeyHasher>(
    context: &PExecutionContext,
    given: &mut Vec<u64>,
    passage: &Passage<H, PhysSink<H>>,
) -> Result<(), RunError>
    requires way { IsUnderWay H.hash_of sink_words context.now.row_limit passage.now.lanes.items
        passage.now.shared.items passage.now.seats.items }
    requires within { (k : ℕ) → number_at given.old.items k ≤ context.now.row_limit }
    ensures added { OnOk result (IsAdded (first_node (nodes_in passage.now.lanes.items))
        (number_at (counts_in passage.now.lanes.items) 0) context.now.row_limit given.old.items
        given.new.items) }
    ensures err { IfErr result (PastLimit (first_node (nodes_in passage.now.lanes.items))
        (number_at (counts_in passage.now.lanes.items) 0) context.now.row_limit given.old.items) }
    ensures calm { stops result ≡ 0 }
{
    let lanes = passage.lanes.as_slice();
    let rows = rows_given(context, lanes, 0);
    add_rows(context, given, node_given(&lanes[0]), rows)
}
