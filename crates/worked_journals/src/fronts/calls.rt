//! A plan's pipelines, run a front part at a time.

ghost use Rattle.std.specs.Prelude.{IfOk};
ghost use Rattle.worked_journals.specs.Fronts.{HasRows};

use pipe_check::CheckedPlan;
use pipe_driver::RunError;
use pipe_engine::Tools;
use pipe_frame::DataFrame;
use pipe_lines::{PipeLine, create_run, none_run_all_left};
use pipe_ops::{FinalizedSink, PExecutionContext};
use pipe_rows::{Fnv, KeyHasher};
use pipe_schema::{NeverStop, OpenGate};
use std::alloc::{AllocError, Global};
use std::thread::Threads;

/// The pipeline that is called, as its text.
fn push_line<H: KeyHasher>(
    alloc: Global,
    told: &mut String,
    line: &PipeLine<H>,
) -> Result<(), AllocError> {
    told.push_str("  ")?;
    told.push_str(format!(in alloc; "{line}")?.as_str())
}

/// How many pipelines a call left.
fn push_left(alloc: Global, told: &mut String, left: usize) -> Result<(), AllocError> {
    told.push_str(format!(in alloc; ": {left} left\n")?.as_str())
}

/// The rows of a plan, whose pipelines are run a front part at a time, and the calls; nothing where no call gave rows.
pub(crate) fn run_fronts<R: Threads + Sync>(
    alloc: Global,
    tools: &Tools<R, OpenGate>,
    plan: &CheckedPlan,
    context: PExecutionContext,
    told: &mut String,
) -> Result<Option<DataFrame>, RunError>
    ensures { IfOk result (HasRows plan.now) }
{
    let Ok((mut pipelines, mut slots, mut counts)) = create_run(alloc, plan, context, Fnv) else {
        return Err(RunError::Memory);
    };
    none_run_all_left::<Fnv>();
    let mut stop = NeverStop::new();
    let mut journal = Vec::new(alloc);
    'fronts: while !pipelines.is_empty() {
        let mut first = pipelines.remove(0);
        let Ok(()) = push_line(alloc, told, &first) else {
            return Err(RunError::Memory);
        };
        let answer = first.run_pipeline(
            alloc,
            tools,
            &context,
            &mut pipelines,
            &mut slots,
            &mut counts,
            &mut stop,
            &mut journal,
        )?;
        let Ok(()) = push_left(alloc, told, pipelines.len()) else {
            return Err(RunError::Memory);
        };
        if let FinalizedSink::Finished(frame) = answer {
            return Ok(Some(frame));
        }
    }
    Ok(None)
}
