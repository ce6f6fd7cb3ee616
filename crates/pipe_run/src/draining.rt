//! A flush through operators into a sink.

ghost use Rattle.std.specs.Prelude.{◌≡◌, ◌≤◌, length, true, IfOk, IfErr};
ghost use Rattle.std.specs.List.{AllByRecursion};
ghost use Rattle.pipe_chain.specs.Chain.{works_of, acts_of, IsChain, AllServe, SameWork};
ghost use Rattle.pipe_chain.specs.Counts.{AllWithin, Went};
ghost use Rattle.pipe_run.specs.Stages.{operators_of, nodes_of, counts, IsOver, Flushed};

use crate::pushing::push;
use crate::stage::{LaneFault, SinkStage, Stage};
use pipe_chain::Operator;
use pipe_ops::{OperatorResult, PExecutionContext, Sink};
use std::alloc::Global;

/// Pushes the pieces of a flush that an operator has begun through the operators behind it into a sink. `TooMany`
/// with a node that has more rows than the limit; `Memory`.
pub fn drain<O: Operator, K: Sink>(
    alloc: Global,
    context: &PExecutionContext,
    own: &O::Shared,
    others: &[O::Shared],
    operator: &mut O,
    rest: &mut [Stage<O>],
    target: &mut SinkStage<K>,
) -> Result<(), LaneFault>
    requires begun { O.flushing operator.old ≡ true }
    requires closed { O.closed operator.old own.now }
    requires idle { AllByRecursion O.idle (operators_of rest.old) }
    requires serves { AllServe O.Operator (operators_of rest.old) others.now }
    requires chain { IsChain O.Operator (O.flushed operator.old) (operators_of rest.old)
        (K.schema target.old.sink) }
    requires within { AllWithin context.now.row_limit (counts rest.old target.old) }
    requires held { length (K.held target.old.sink) ≤ target.old.given }
    ensures flushed { Flushed O.Operator own.now operator.old operator.new }
    ensures work { SameWork O.Operator (operators_of rest.old) (operators_of rest.new) }
    ensures nodes { nodes_of rest.new target.new ≡ nodes_of rest.old target.old }
    ensures setting { K.setting target.new.sink ≡ K.setting target.old.sink }
    ensures schema { K.schema target.new.sink ≡ K.schema target.old.sink }
    ensures gives { K.gives target.new.sink ≡ K.gives target.old.sink }
    ensures over_now { IfOk result (λ _. O.idle operator.new) }
    ensures idle { IfOk result (λ _. AllByRecursion O.idle (operators_of rest.new)) }
    ensures within { IfOk result (λ _. AllWithin context.now.row_limit
        (counts rest.new target.new)) }
    ensures room { IfOk result (λ _. length (K.held target.new.sink) ≤ target.new.given) }
    ensures went { IfOk result (λ _. Went (works_of O.Operator (O.flushed operator.old)
        (operators_of rest.old) others.now)
        (acts_of O.Operator (operators_of rest.old)) (acts_of O.Operator (operators_of rest.new))
        (counts rest.old target.old) (counts rest.new target.new) (O.owed operator.old own.now)
        (K.held target.old.sink) (K.held target.new.sink)) }
    ensures over { IfErr result (IsOver context.now.row_limit (works_of O.Operator
        (O.flushed operator.old) (operators_of rest.old) others.now)
        (acts_of O.Operator (operators_of rest.old)) (acts_of O.Operator (operators_of rest.new))
        (counts rest.old target.old) (nodes_of rest.old target.old) (O.owed operator.old own.now)) }
{
    loop {
        let Ok(answer) = operator.flush(alloc, context, own) else {
            return Err(LaneFault::Memory);
        };
        match answer {
            OperatorResult::NeedsNewData => return Ok(()),
            OperatorResult::HaveMoreOutPut(piece) => {
                push(alloc, context, others, rest, piece, target)?
            }
            OperatorResult::Finished(piece) => {
                return push(alloc, context, others, rest, piece, target);
            }
        }
    }
}
