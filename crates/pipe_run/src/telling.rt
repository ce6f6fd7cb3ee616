//! What a round ends with: the refusal of the least lane, or else whether all lanes together are within the limit.

ghost use Rattle.std.specs.Prelude.{◌≡◌, ◌≤◌, ◌<◌, All, length, IfOk, IfErr, slice_index_or};
ghost use Rattle.pipe_chain.specs.Counts.{AllWithin};
ghost use Rattle.pipe_run.specs.Stages.{counts, nodes_of, Tells};
ghost use Rattle.pipe_run.specs.Dealt.{IsWithin, HasNodes, counts_in, nodes_in, first_refused};
ghost use Rattle.pipe_run.specs.Lanes.{lane_counts, lane_nodes};

use crate::lane::Lane;
use crate::stage::{LaneFault, SinkStage, Stage};
use pipe_ops::PExecutionContext;
use std::collections::VecDeque;

/// The refusal of the first lane that kept one.
pub(crate) fn first_refusal<O, K>(lanes: &[Lane<O, K>]) -> Option<LaneFault>
    ensures { result ≡ first_refused lanes.now }
{
    for lane in lanes {
        if lane.refused.is_some() {
            return lane.refused;
        }
    }
    None
}

/// How many rows were given at a place: at each operator, and last at the sink.
fn given_at<O, K>(stages: &VecDeque<Stage<O>>, target: &SinkStage<K>, place: usize) -> u64
    requires { place < length (counts stages.now.items target.now) }
    ensures { result ≡ slice_index_or (counts stages.now.items target.now) place 0 }
{
    if place < stages.len() {
        return stages[place].given;
    }
    target.given
}

/// The node at a place.
fn node_at<O, K>(stages: &VecDeque<Stage<O>>, target: &SinkStage<K>, place: usize) -> u32
    requires { place < length (nodes_of stages.now.items target.now) }
    ensures { result ≡ slice_index_or (nodes_of stages.now.items target.now) place 0 }
{
    if place < stages.len() {
        return stages[place].node;
    }
    target.node
}

/// How many rows a lane was given at a place.
fn lane_given<O, K>(lane: &Lane<O, K>, place: usize) -> u64
    requires { place < length (lane_counts lane.now) }
    ensures { result ≡ slice_index_or (lane_counts lane.now) place 0 }
{
    given_at(&lane.stages, &lane.target, place)
}

/// The node of a lane at a place.
fn lane_node<O, K>(lane: &Lane<O, K>, place: usize) -> u32
    requires { place < length (lane_nodes lane.now) }
    ensures { result ≡ slice_index_or (lane_nodes lane.now) place 0 }
{
    node_at(&lane.stages, &lane.target, place)
}

/// How many rows all lanes were given at a place.
pub fn rows_given<O, K>(context: &PExecutionContext, lanes: &[Lane<O, K>], place: usize) -> u64
    requires few { length lanes.now ≤ 256 }
    requires nodes { All (HasNodes (nodes_in lanes.now)) lanes.now }
    requires within { All (IsWithin context.now.row_limit) lanes.now }
    requires place { place < length (nodes_in lanes.now) }
    ensures { result ≡ slice_index_or (counts_in lanes.now) place 0 }
{
    let mut rows = 0;
    for lane in lanes {
        rows += lane_given(lane, place);
    }
    rows
}

/// Whether all lanes together are within the limit. `TooMany` with a node that has more rows.
pub(crate) fn check_counts<O, K>(
    context: &PExecutionContext,
    lanes: &[Lane<O, K>],
) -> Result<(), LaneFault>
    requires some { 0 < length lanes.now }
    requires few { length lanes.now ≤ 256 }
    requires nodes { All (HasNodes (nodes_in lanes.now)) lanes.now }
    requires within { All (IsWithin context.now.row_limit) lanes.now }
    ensures within { IfOk result (λ _. AllWithin context.now.row_limit (counts_in lanes.now)) }
    ensures over { IfErr result (Tells context.now.row_limit (counts_in lanes.now)
        (nodes_in lanes.now)) }
{
    let places = lanes[0].stages.len() + 1;
    for place in 0..places {
        if rows_given(context, lanes, place) > context.row_limit as u64 {
            return Err(LaneFault::TooMany(lane_node(&lanes[0], place)));
        }
    }
    Ok(())
}
