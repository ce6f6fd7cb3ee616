//! Whether a job may be run: its numbers are good, and its plan is well-formed.

ghost use Rattle.std.specs.Prelude.{◌≡◌, IfOk, IfErr, IsErrOf, OnOk};
ghost use Rattle.pipe_plan.specs.Plan.{plan_of};
ghost use Rattle.pipe_exec.specs.Sound.{CheckCauses, IsSoundRun};

use crate::numbers::is_config;
use pipe_check::{CheckedPlan, check_plan};
use pipe_plan::{Arena, PipeConfig, PipeError};
use std::alloc::Global;

/// The plan of a job, checked. `BadConfig` exactly where a number is out of its range; else what `check_plan`
/// refuses.
#[tactic(auto, using(crate::proofs::Unstopped::checked_unstopped))]
pub fn check_job<'a>(
    alloc: Global,
    arena: &'a Arena,
    root: u32,
    config: &PipeConfig,
) -> Result<CheckedPlan<'a>, PipeError>
    ensures plan { IfOk result (λ plan. plan ≡ record { arena = arena.now; root = root }) }
    ensures sound { OnOk result (IsSoundRun (plan_of arena.now) root config.now) }
    ensures err { IfErr result (CheckCauses (plan_of arena.now) root config.now) }
    ensures unstopped { IsErrOf result PipeError.Stopped → ⊥ }
{
    if !is_config(config) {
        return Err(PipeError::BadConfig);
    }
    check_plan(alloc, arena, root)
}
