//! A pipeline's operators and sinks leg by leg.

ghost use Rattle.std.specs.Prelude.{◌≡◌, ◌≤◌, ◌∷◌, [], length, drop, IfOk, OnOk};
ghost use Rattle.pipe_convert.specs.Steps.{last_of};
ghost use Rattle.pipe_lines.specs.Cuts.{AreLegsCut, EndWithin, IsLegCut, next_of, place_of, stages_of};

use crate::pipe_nodes::PipeNodes;
use crate::threaded_sink::ThreadedSink;
use pipe_convert::operators_between;
use pipe_driver::{Leg, SinkAt};
use pipe_engine::Part;
use pipe_ops::Sink;
use pipe_rows::KeyHasher;
use pipe_run::{SinkStage, Stage};
use pipe_slots::{PhysOperator, PhysSink};
use std::alloc::{AllocError, Global};
use std::collections::VecDeque;

/// The place of a sink: that of the root where it has no node, else of the side of a join that is built, or of a sort.
fn place_of<H: KeyHasher>(sink: &PhysSink<H>, node: Option<u32>) -> SinkAt
    ensures { result ≡ place_of sink.now node }
{
    match node {
        None => SinkAt::Ordered,
        Some(node) => {
            if sink.is_join_build() {
                SinkAt::Build(node)
            } else {
                SinkAt::Sort(node)
            }
        }
    }
}

/// The last of some nodes behind another, or that one.
fn last_node(start: u32, operators: &[u32]) -> u32
    ensures { result ≡ last_of start operators.now }
{
    let mut last = start;
    for n in operators {
        last = *n;
    }
    last
}

/// The first operators, one for each of some nodes, each with the node whose rows it is given.
fn cut_stages<H: KeyHasher>(
    alloc: Global,
    operators: &mut VecDeque<PhysOperator<H>>,
    start: u32,
    nodes: &[u32],
) -> Result<Vec<Stage<PhysOperator<H>>>, AllocError>
    requires { length nodes.now ≤ length operators.old.items }
    ensures stages { IfOk result
        (λ stages. stages.items ≡ stages_of start operators.old.items nodes.now) }
    ensures left { OnOk result
        (operators.new.items ≡ drop (length nodes.now) operators.old.items) }
{
    let mut stages = Vec::new(alloc);
    let mut given = start;
    for n in nodes {
        let Some(operator) = operators.pop_front() else {
            unreachable!()
        };
        stages.push(Stage {
            operator,
            node: given,
            given: 0,
        })?;
        given = *n;
    }
    Ok(stages)
}

/// The leg up to a sink, which begins at a node: the first operators go through it.
fn cut_leg<H: KeyHasher>(
    alloc: Global,
    operators: &mut VecDeque<PhysOperator<H>>,
    start: u32,
    nodes: &[u32],
    scans: Vec<u32>,
    sink: ThreadedSink<H>,
    sink_node: Option<u32>,
) -> Result<Leg<Part<H>>, AllocError>
    requires { length nodes.now ≤ length operators.old.items }
    ensures leg { IfOk result
        (IsLegCut operators.old.items nodes.now start scans.items sink sink_node) }
    ensures left { OnOk result
        (operators.new.items ≡ drop (length nodes.now) operators.old.items) }
{
    let stages = cut_stages(alloc, operators, start, nodes)?;
    let through = nodes.to_vec(alloc)?;
    let at = place_of(&sink.sink, sink_node);
    let ThreadedSink {
        sink,
        count,
        operator_end: _,
        workers: _,
    } = sink;
    Ok(Leg {
        operators: through,
        at,
        count,
        part: Part {
            at,
            stages,
            target: SinkStage {
                sink,
                node: last_node(start, nodes),
                given: 0,
            },
            scans,
        },
    })
}

/// Where the next leg begins: behind a sink that has a node, there.
fn next_start(start: u32, sink_node: Option<u32>) -> u32
    ensures { result ≡ next_of start sink_node }
{
    match sink_node {
        Some(node) => node,
        None => start,
    }
}

/// That node alone.
fn only_node(alloc: Global, node: u32) -> Result<Vec<u32>, AllocError>
    ensures { IfOk result (λ nodes. nodes.items ≡ node ∷ []) }
{
    let mut nodes = Vec::new(alloc);
    nodes.push(node)?;
    Ok(nodes)
}

/// The legs of a pipeline: each has the operators up to its sink, and behind that the next one begins.
pub(crate) fn cut_legs<H: KeyHasher>(
    alloc: Global,
    operators: Vec<PhysOperator<H>>,
    sinks: Vec<ThreadedSink<H>>,
    nodes: PipeNodes,
) -> Result<Vec<Leg<Part<H>>>, AllocError>
    requires ends { EndWithin (length operators.items) 0 sinks.items }
    requires operators { length nodes.operators.items ≡ length operators.items }
    requires sinks { length nodes.sinks.items ≡ length sinks.items }
    ensures { IfOk result (λ legs. AreLegsCut operators.items nodes.operators.items 0 nodes.source
        nodes.scans.items sinks.items nodes.sinks.items legs.items) }
{
    let PipeNodes {
        source,
        scans,
        operators: through,
        sinks: sink_nodes,
    } = nodes;
    let mut left = VecDeque::from_vec(operators);
    let mut ends = VecDeque::from_vec(sinks);
    let mut legs = Vec::new(alloc);
    let mut start = source;
    let mut taken = scans;
    let mut first = 0;
    for sink_node in sink_nodes.as_slice() {
        let Some(sink) = ends.pop_front() else {
            unreachable!()
        };
        let end = sink.operator_end as usize;
        let ahead = operators_between(through.as_slice(), first, end);
        legs.push(cut_leg(alloc, &mut left, start, ahead, taken, sink, *sink_node)?)?;
        start = next_start(start, *sink_node);
        taken = only_node(alloc, start)?;
        first = end;
    }
    Ok(legs)
}
