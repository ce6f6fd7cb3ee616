//! A list that is replayed, to its world or none, and one that is gone through step by step.

ghost use Rattle.std.specs.Prelude.{◌≤◌, ◌^◌, IfOk};
ghost use Rattle.pipe_replay.specs.KeptWorld.{IsOf};

use crate::events::answer::{Damage, events_of, push_end, push_shown};
use crate::events::written::WrittenList;
use pipe_check::{CheckedPlan, check_plan};
use pipe_events::Event;
use pipe_plan::PipeError;
use pipe_replay::{StepAnswer, World, replay, step};
use pipe_rows::Fnv;
use std::alloc::{AllocError, Global};
use worked_texts::job_of;

/// How a list is told.
#[derive(Clone, Copy)]
pub(crate) enum Telling {
    /// By its replay.
    Replayed,
    /// Step by step.
    Stepped,
}

/// Replays events, and appends the end that their world stands at, or that there is none.
fn tell_replay(
    alloc: Global,
    answers: &mut String,
    plan: &CheckedPlan,
    workers: u32,
    events: &[Event],
) -> Result<(), AllocError>
    requires { workers ≤ 2 ^ 31 }
{
    match replay(alloc, plan, &Fnv, workers, events)? {
        Some(world) => push_end(alloc, answers, plan, &world),
        None => answers.push_str("none\n"),
    }
}

/// Applies an event, and appends whether it is allowed and where the world stands then.
fn tell_step(
    alloc: Global,
    answers: &mut String,
    plan: &CheckedPlan,
    world: World,
    event: &Event,
) -> Result<World, AllocError>
    requires { IsOf plan.now world }
    ensures { IfOk result (IsOf plan.now) }
{
    let StepAnswer { world, allowed } = step(alloc, plan, &Fnv, world, event)?;
    answers.push_str(if allowed { "allowed: " } else { "refused: " })?;
    push_end(alloc, answers, plan, &world)?;
    Ok(world)
}

/// Appends where the world stands before events, and after each of them.
fn tell_steps(
    alloc: Global,
    answers: &mut String,
    plan: &CheckedPlan,
    workers: u32,
    events: &[Event],
) -> Result<(), AllocError>
    requires { workers ≤ 2 ^ 31 }
{
    let mut world = World::start(alloc, plan, workers)?;
    answers.push_str("start: ")?;
    push_end(alloc, answers, plan, &world)?;
    for event in events {
        world = tell_step(alloc, answers, plan, world, event)?;
    }
    Ok(())
}

fn tell_events(
    alloc: Global,
    answers: &mut String,
    plan: &CheckedPlan,
    workers: u32,
    events: &[Event],
    telling: Telling,
) -> Result<(), AllocError> {
    if workers > 256 {
        return answers.push_str("too many workers\n");
    }
    match telling {
        Telling::Replayed => tell_replay(alloc, answers, plan, workers, events),
        Telling::Stepped => tell_steps(alloc, answers, plan, workers, events),
    }
}

/// Appends what a list shows, and how it is told.
pub(crate) fn tell_list(
    alloc: Global,
    answers: &mut String,
    list: WrittenList,
    telling: Telling,
) -> Result<(), AllocError> {
    push_shown(answers, list)?;
    let Some(job) = job_of(alloc, list.job)? else {
        return answers.push_str("no job\n");
    };
    let events = events_of(alloc, list.events, Damage::Whole)?;
    match check_plan(alloc, &job.arena, job.root) {
        Ok(plan) => {
            let workers = job.config.workers;
            tell_events(alloc, answers, &plan, workers, events.as_slice(), telling)
        }
        Err(PipeError::Memory) => Err(AllocError),
        Err(_) => answers.push_str("fault\n"),
    }
}
