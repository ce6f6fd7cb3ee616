//! Lanes at their start.

ghost use Rattle.std.specs.Prelude.{◌≡◌, List, [], All, IfOk, vec_len};
ghost use Rattle.std.specs.List.{flat_map};
ghost use Rattle.pipe_schema.specs.declared.field.Field.{Field};
ghost use Rattle.pipe_chain.specs.Chain.{works_of, IsChain, AllSuit};
ghost use Rattle.pipe_chain.specs.Counts.{AllWithin};
ghost use Rattle.pipe_chain.specs.Flow.{nothing};
ghost use Rattle.pipe_run.specs.Dealt.{AreAlike, works_in, nodes_in, acts_in, counts_in};
ghost use Rattle.pipe_run.specs.Lanes.{IsCalm, IsSet, held_in};
ghost use Rattle.pipe_run.specs.Opens.{AreSplit, IsOpened, IsStageOf, IsFitSeated};
ghost use Rattle.pipe_run.specs.Stages.{operators_of, nodes_of};

use crate::lane::Lane;
use crate::stage::{SinkStage, Stage};
use pipe_chain::Operator;
use pipe_ops::{PExecutionContext, Sink};
use std::alloc::{AllocError, Global};
use std::collections::VecDeque;

/// A stage for a further lane, which was given no row.
fn split_stage<O: Operator>(
    alloc: Global,
    stage: &Stage<O>,
    thread_no: usize,
) -> Result<Stage<O>, AllocError>
    ensures { IfOk result (IsStageOf O.Operator stage.now) }
{
    Ok(Stage {
        operator: stage.operator.split(alloc, thread_no)?,
        node: stage.node,
        given: 0,
    })
}

/// Stages for a further lane.
fn split_stages<O: Operator + Drop>(
    alloc: Global,
    stages: &[Stage<O>],
    thread_no: usize,
) -> Result<Vec<Stage<O>>, AllocError>
    ensures { IfOk result (λ made. AreSplit O.Operator stages.now made.items) }
{
    let mut made = Vec::with_capacity(alloc, stages.len())?;
    for stage in stages {
        made.push(split_stage(alloc, stage, thread_no)?)?;
    }
    Ok(made)
}

/// A lane that has done nothing, over operators and a sink of its own.
pub fn open_lane<O: Operator + Drop, K: Sink + Drop>(
    alloc: Global,
    stages: &[Stage<O>],
    target: &SinkStage<K>,
    thread_no: usize,
) -> Result<Lane<O, K>, AllocError>
    ensures { IfOk result (IsOpened O.Operator K.Sink stages.now target.now) }
{
    let own = split_stages(alloc, stages, thread_no)?;
    let sink = target.sink.split(alloc, thread_no)?;
    Ok(Lane {
        stages: VecDeque::from_vec(own),
        flushers: Vec::new(alloc),
        target: SinkStage {
            sink,
            node: target.node,
            given: 0,
        },
        seat: None,
        entries: Vec::new(alloc),
        refused: None,
    })
}

/// As many lanes as there are workers, which have done nothing.
pub fn open_lanes<O: Operator + Drop, K: Sink + Drop>(
    alloc: Global,
    context: &PExecutionContext,
    shared: &[O::Shared],
    stages: &[Stage<O>],
    target: &SinkStage<K>,
) -> Result<Vec<Lane<O, K>>, AllocError>
    requires suits { AllSuit O.Operator (operators_of stages.now) shared.now }
    ensures len { IfOk result (λ lanes. vec_len lanes ≡ context.now.workers) }
    ensures opened { IfOk result (λ lanes.
        All (IsOpened O.Operator K.Sink stages.now target.now) lanes.items) }
    ensures calm { IfOk result (λ lanes. All IsCalm lanes.items) }
    ensures fit { IfOk result (λ lanes. (from : List Field) →
        IsChain O.Operator from (operators_of stages.now) (K.schema target.now.sink) →
        All (IsFitSeated O.Operator K.Sink shared.now context.now.row_limit from) lanes.items) }
    ensures alike { IfOk result (λ lanes. (from : List Field) →
        AreAlike O.Operator from shared.now lanes.items) }
    ensures works { IfOk result (λ lanes. (from : List Field) →
        works_in O.Operator from shared.now lanes.items
        ≡ works_of O.Operator from (operators_of stages.now) shared.now) }
    ensures nodes { IfOk result (λ lanes. nodes_in lanes.items ≡ nodes_of stages.now target.now) }
    ensures acts { IfOk result (λ lanes. acts_in O.Operator lanes.items ≡ nothing stages.now) }
    ensures within { IfOk result (λ lanes. AllWithin 0 (counts_in lanes.items)) }
    ensures empty { IfOk result (λ lanes. flat_map (held_in K.held) lanes.items ≡ []) }
    ensures settings { IfOk result (λ lanes.
        All (IsSet K.setting (K.setting target.now.sink)) lanes.items) }
    ensures schemas { IfOk result (λ lanes.
        All (IsSet K.schema (K.schema target.now.sink)) lanes.items) }
    ensures gives { IfOk result (λ lanes.
        All (IsSet K.gives (K.gives target.now.sink)) lanes.items) }
{
    let mut lanes = Vec::with_capacity(alloc, context.workers as usize)?;
    for thread_no in 0..context.workers {
        lanes.push(open_lane(alloc, stages, target, thread_no as usize)?)?;
    }
    Ok(lanes)
}
