//! A chunk through operators into a sink.

ghost use Rattle.std.specs.Prelude.{◌≡◌, ◌+◌, ◌≤◌, List, [], ◌∷◌, ◌++◌, length, IfOk, IfErr};
ghost use Rattle.std.specs.List.{AllByRecursion};
ghost use Rattle.pipe_schema.specs.Rows.{Same};
ghost use Rattle.pipe_chain.specs.Chain.{works_of, acts_of, IsChain, AllServe, SameWork};
ghost use Rattle.pipe_chain.specs.Counts.{AllWithin, Went};
ghost use Rattle.pipe_run.specs.Stages.{operators_of, nodes_of, counts, IsOver, IsOverAbove};

use crate::stage::{LaneFault, SinkStage, Stage, count};
use pipe_chain::Operator;
use pipe_frame::DataChunk;
use pipe_ops::{OperatorResult, PExecutionContext, Sink};
use pipe_schema::TryClone;
use std::alloc::Global;

/// Pushes a chunk through operators into a sink. Each operator has begun nothing, takes what the one before it
/// gives, and may work with its shared value; no count is past the limit. `TooMany` with a node that has more rows
/// than the limit; `Memory`.
#[cycle(push)]
pub fn push<O: Operator, K: Sink>(
    alloc: Global,
    context: &PExecutionContext,
    shared: &[O::Shared],
    stages: &mut [Stage<O>],
    chunk: DataChunk,
    target: &mut SinkStage<K>,
) -> Result<(), LaneFault>
    requires idle { AllByRecursion O.idle (operators_of stages.old) }
    requires serves { AllServe O.Operator (operators_of stages.old) shared.now }
    requires chain { IsChain O.Operator chunk.frame.schema (operators_of stages.old)
        (K.schema target.old.sink) }
    requires within { AllWithin context.now.row_limit (counts stages.old target.old) }
    requires held { length (K.held target.old.sink) ≤ target.old.given }
    ensures work { SameWork O.Operator (operators_of stages.old) (operators_of stages.new) }
    ensures nodes { nodes_of stages.new target.new ≡ nodes_of stages.old target.old }
    ensures setting { K.setting target.new.sink ≡ K.setting target.old.sink }
    ensures schema { K.schema target.new.sink ≡ K.schema target.old.sink }
    ensures gives { K.gives target.new.sink ≡ K.gives target.old.sink }
    ensures idle { IfOk result (λ _. AllByRecursion O.idle (operators_of stages.new)) }
    ensures within { IfOk result (λ _. AllWithin context.now.row_limit
        (counts stages.new target.new)) }
    ensures room { IfOk result (λ _. length (K.held target.new.sink) ≤ target.new.given) }
    ensures went { IfOk result (λ _. Went
        (works_of O.Operator chunk.frame.schema (operators_of stages.old) shared.now)
        (acts_of O.Operator (operators_of stages.old)) (acts_of O.Operator (operators_of stages.new))
        (counts stages.old target.old) (counts stages.new target.new) chunk.frame.rows
        (K.held target.old.sink) (K.held target.new.sink)) }
    ensures over { IfErr result (IsOver context.now.row_limit
        (works_of O.Operator chunk.frame.schema (operators_of stages.old) shared.now)
        (acts_of O.Operator (operators_of stages.old)) (acts_of O.Operator (operators_of stages.new))
        (counts stages.old target.old) (nodes_of stages.old target.old) chunk.frame.rows) }
{
    let Some((stage, rest)) = stages.split_first_mut() else {
        return fill(alloc, context, chunk, target);
    };
    let Some((own, others)) = shared.split_first() else {
        unreachable!()
    };
    if !count(context, &mut stage.given, chunk.frame.height()) {
        return Err(LaneFault::TooMany(stage.node));
    }
    pump(
        alloc,
        context,
        own,
        others,
        &mut stage.operator,
        rest,
        chunk,
        target,
    )
}

/// Puts a chunk into the sink.
fn fill<K: Sink>(
    alloc: Global,
    context: &PExecutionContext,
    chunk: DataChunk,
    target: &mut SinkStage<K>,
) -> Result<(), LaneFault>
    requires schema { chunk.frame.schema ≡ K.schema target.old.sink }
    requires within { target.old.given ≤ context.now.row_limit }
    requires held { length (K.held target.old.sink) ≤ target.old.given }
    ensures node { target.new.node ≡ target.old.node }
    ensures setting { K.setting target.new.sink ≡ K.setting target.old.sink }
    ensures schema { K.schema target.new.sink ≡ K.schema target.old.sink }
    ensures gives { K.gives target.new.sink ≡ K.gives target.old.sink }
    ensures within { IfOk result (λ _. target.new.given ≤ context.now.row_limit) }
    ensures room { IfOk result (λ _. length (K.held target.new.sink) ≤ target.new.given) }
    ensures went { IfOk result (λ _. Went [] [] [] (target.old.given ∷ []) (target.new.given ∷ [])
        chunk.frame.rows (K.held target.old.sink) (K.held target.new.sink)) }
    ensures over { IfErr result (IsOver context.now.row_limit [] [] [] (target.old.given ∷ [])
        (target.old.node ∷ []) chunk.frame.rows) }
{
    if !count(context, &mut target.given, chunk.frame.height()) {
        return Err(LaneFault::TooMany(target.node));
    }
    match target.sink.sink(alloc, context, chunk) {
        Ok(_) => Ok(()),
        Err(_) => Err(LaneFault::Memory),
    }
}

/// Pushes the pieces that an operator makes of a chunk, which is given back before the last of them goes on.
#[cycle(push)]
fn pump<O: Operator, K: Sink>(
    alloc: Global,
    context: &PExecutionContext,
    own: &O::Shared,
    others: &[O::Shared],
    operator: &mut O,
    rest: &mut [Stage<O>],
    chunk: DataChunk,
    target: &mut SinkStage<K>,
) -> Result<(), LaneFault>
    requires idle { AllByRecursion O.idle (operator.old ∷ operators_of rest.old) }
    requires serves { AllServe O.Operator (operator.old ∷ operators_of rest.old)
        (own.now ∷ others.now) }
    requires chain { IsChain O.Operator chunk.frame.schema
        (operator.old ∷ operators_of rest.old) (K.schema target.old.sink) }
    requires size { length chunk.frame.rows ≤ context.now.row_limit }
    requires within { AllWithin context.now.row_limit (counts rest.old target.old) }
    requires held { length (K.held target.old.sink) ≤ target.old.given }
    ensures work { SameWork O.Operator (operator.old ∷ operators_of rest.old)
        (operator.new ∷ operators_of rest.new) }
    ensures nodes { nodes_of rest.new target.new ≡ nodes_of rest.old target.old }
    ensures setting { K.setting target.new.sink ≡ K.setting target.old.sink }
    ensures schema { K.schema target.new.sink ≡ K.schema target.old.sink }
    ensures gives { K.gives target.new.sink ≡ K.gives target.old.sink }
    ensures idle { IfOk result (λ _. AllByRecursion O.idle (operator.new ∷ operators_of rest.new)) }
    ensures within { IfOk result (λ _. AllWithin context.now.row_limit
        (counts rest.new target.new)) }
    ensures room { IfOk result (λ _. length (K.held target.new.sink) ≤ target.new.given) }
    ensures went { IfOk result (λ _. Went (works_of O.Operator chunk.frame.schema
        (operator.old ∷ operators_of rest.old) (own.now ∷ others.now))
        (acts_of O.Operator (operator.old ∷ operators_of rest.old))
        (acts_of O.Operator (operator.new ∷ operators_of rest.new))
        (0 ∷ counts rest.old target.old) (length chunk.frame.rows ∷ counts rest.new target.new)
        chunk.frame.rows (K.held target.old.sink) (K.held target.new.sink)) }
    ensures over { IfErr result (IsOverAbove context.now.row_limit (works_of O.Operator
        chunk.frame.schema (operator.old ∷ operators_of rest.old) (own.now ∷ others.now))
        (acts_of O.Operator (operator.old ∷ operators_of rest.old))
        (acts_of O.Operator (operator.new ∷ operators_of rest.new))
        (counts rest.old target.old) (nodes_of rest.old target.old) chunk.frame.rows) }
{
    loop {
        let Ok(answer) = operator.execute(alloc, context, own, &chunk) else {
            return Err(LaneFault::Memory);
        };
        match answer {
            OperatorResult::NeedsNewData => return Ok(()),
            OperatorResult::HaveMoreOutPut(piece) => {
                push(alloc, context, others, rest, piece, target)?
            }
            OperatorResult::Finished(piece) => {
                drop(chunk);
                return push(alloc, context, others, rest, piece, target);
            }
        }
    }
}

/// Pushes a chunk that other lanes may see too.
pub fn push_shared<O: Operator, K: Sink>(
    alloc: Global,
    context: &PExecutionContext,
    shared: &[O::Shared],
    stages: &mut [Stage<O>],
    chunk: &DataChunk,
    target: &mut SinkStage<K>,
) -> Result<(), LaneFault>
    requires idle { AllByRecursion O.idle (operators_of stages.old) }
    requires serves { AllServe O.Operator (operators_of stages.old) shared.now }
    requires chain { IsChain O.Operator chunk.now.frame.schema (operators_of stages.old)
        (K.schema target.old.sink) }
    requires within { AllWithin context.now.row_limit (counts stages.old target.old) }
    requires held { length (K.held target.old.sink) ≤ target.old.given }
    ensures work { SameWork O.Operator (operators_of stages.old) (operators_of stages.new) }
    ensures nodes { nodes_of stages.new target.new ≡ nodes_of stages.old target.old }
    ensures setting { K.setting target.new.sink ≡ K.setting target.old.sink }
    ensures schema { K.schema target.new.sink ≡ K.schema target.old.sink }
    ensures gives { K.gives target.new.sink ≡ K.gives target.old.sink }
    ensures idle { IfOk result (λ _. AllByRecursion O.idle (operators_of stages.new)) }
    ensures within { IfOk result (λ _. AllWithin context.now.row_limit
        (counts stages.new target.new)) }
    ensures room { IfOk result (λ _. length (K.held target.new.sink) ≤ target.new.given) }
    ensures went { IfOk result (λ _. Went (works_of O.Operator chunk.now.frame.schema
        (operators_of stages.old) shared.now)
        (acts_of O.Operator (operators_of stages.old)) (acts_of O.Operator (operators_of stages.new))
        (counts stages.old target.old) (counts stages.new target.new) chunk.now.frame.rows
        (K.held target.old.sink) (K.held target.new.sink)) }
    ensures over { IfErr result (IsOver context.now.row_limit (works_of O.Operator
        chunk.now.frame.schema (operators_of stages.old) shared.now)
        (acts_of O.Operator (operators_of stages.old)) (acts_of O.Operator (operators_of stages.new))
        (counts stages.old target.old) (nodes_of stages.old target.old) chunk.now.frame.rows) }
{
    let Ok(held) = chunk.try_clone() else {
        return Err(LaneFault::Memory);
    };
    push(alloc, context, shared, stages, held, target)
}
