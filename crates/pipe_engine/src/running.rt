//! Front parts of branches, one after another.

ghost use Rattle.std.specs.Prelude.{◌≡◌, ◌≤◌, ℕ, [], ◌∷◌, IfOk, IfErr, OnOk, Err, true};
ghost use Rattle.pipe_schema.specs.Counts.{Counts, Rises};
ghost use Rattle.pipe_driver.specs.Tables.{number_at};
ghost use Rattle.pipe_engine.specs.Asked.{WasAsked, stops};
ghost use Rattle.pipe_engine.specs.Engine.{IsIdle, NoneOpen};
ghost use Rattle.pipe_engine.specs.Drives.{ForSome, ForEach, CanGo, Stopped, FedSinks, CanBegin, RanFront, CanRun, HasRoot};
ghost use Rattle.pipe_engine.specs.Drives.{IsRootAnswer, HasRootSchema, KeepsOpen, LowersRoot, RunsWithin};
ghost use Rattle.pipe_engine.specs.Journals.{Keeps, NotedAt, NotedGoing, WroteWhole};
ghost use Rattle.pipe_engine.specs.Paced.{HasKeptPace, TakesPaced};
ghost use Rattle.pipe_engine.specs.Paced.{most_of, rows_due_from, rows_due_of};
ghost use Rattle.pipe_engine.specs.Refused.{TellsEachPlan};
ghost use Rattle.pipe_run.specs.Paced.{KeepsPace};

use crate::driving::{close, feed};
use crate::engine::{PlanLine, PlanRun, Tools};
use pipe_driver::{Next, RunError, are_closed, newer};
use pipe_events::Event;
use pipe_frame::DataFrame;
use pipe_rows::KeyHasher;
use pipe_schema::{Gate, StopCheck};
use std::alloc::Global;
use std::collections::VecDeque;
use std::mem::replace;
use std::thread::Threads;

/// Runs a pipeline and each one that goes on, up to a sink that isn't closed or that of a build or the root. The
/// numbers of the sinks that were fed are added to `fed`.
fn run_way<R: Threads + Sync, H: KeyHasher, C: StopCheck, G: Gate + Sync>(
    alloc: Global,
    tools: &Tools<R, G>,
    stop: &mut C,
    run: &mut PlanRun<H>,
    pipelines: &VecDeque<PlanLine<H>>,
    first: PlanLine<H>,
    fed: &mut Vec<u32>,
) -> Result<Option<DataFrame>, RunError>
    requires idle { IsIdle run.old.runner }
    requires can { ForSome (CanGo H.hash_of run.old first pipelines.now.items) }
    ensures stopped { IfOk result (λ answer. ForEach
        (CanGo H.hash_of run.old first pipelines.now.items)
        (Stopped H.hash_of run.old run.new pipelines.now.items answer)) }
    ensures noted { OnOk result (ForEach (CanGo H.hash_of run.old first pipelines.now.items)
        (Keeps run.old (NotedGoing run.old first pipelines.now.items)
        (NotedAt run.new pipelines.now.items))) }
    ensures fed { OnOk result (ForEach (CanGo H.hash_of run.old first pipelines.now.items)
        (FedSinks first run.old run.new fed.old.items fed.new.items)) }
    ensures err { IfErr result (λ e. ForEach (CanGo H.hash_of run.old first pipelines.now.items)
        (TellsEachPlan run.old.runner.context.row_limit e)) }
    ensures frame { IfOk result (λ answer. ForEach
        (CanGo H.hash_of run.old first pipelines.now.items) (IsRootAnswer answer)) }
    ensures falls { OnOk result ((k : ℕ) → number_at run.new.counts.left.items k
        ≤ number_at run.old.counts.left.items k) }
    ensures lowers { IfOk result (λ answer. ForEach
        (CanGo H.hash_of run.old first pipelines.now.items) (LowersRoot run.old run.new answer)) }
    ensures asked { WasAsked C.StopCheck 1 stop.old stop.new result }
    ensures paced { OnOk result (TakesPaced (most_of run.old.runner.context)
        (rows_due_from first.source) 0 (C.asked stop.old) (C.asked stop.new)) }
    ensures kept { OnOk result (HasKeptPace (C.asked stop.old) (C.asked stop.new)
        run.old.runner run.new.runner) }
    ensures context { run.new.runner.context ≡ run.old.runner.context }
    ensures opened { OnOk result (ForEach (CanGo H.hash_of run.old first pipelines.now.items)
        (KeepsOpen run.old run.new fed.old.items fed.new.items)) }
{
    let mut current = first;
    'ways: loop {
        let done = feed(alloc, tools, stop, run, pipelines, current)?;
        let Ok(()) = fed.push(done.count) else {
            return Err(RunError::Memory);
        };
        if done.left > 0 {
            return Ok(None);
        }
        match close(alloc, tools, run, pipelines, done)? {
            Next::GoOn(next) => current = next,
            Next::Stay => return Ok(None),
            Next::Answer(frame) => return Ok(Some(frame)),
        }
    }
}

/// Runs the shortest front part of the branches, the first pipeline among them, such that no later branch feeds a sink
/// that a branch of the part feeds. The others stay, in order. The answer is there where the root's sink was closed.
/// `Stopped` where the stop check said yes, after which it isn't asked again; else it said no each time.
pub fn run_front<R: Threads + Sync, H: KeyHasher, C: StopCheck, G: Gate + Sync>(
    alloc: Global,
    tools: &Tools<R, G>,
    stop: &mut C,
    run: &mut PlanRun<H>,
    first: PlanLine<H>,
    pipelines: &mut VecDeque<PlanLine<H>>,
) -> Result<Option<DataFrame>, RunError>
    requires can { ForSome (CanBegin H.hash_of run.old (first ∷ pipelines.old.items)) }
    requires parked { run.old.parked.items ≡ [] }
    ensures front { IfOk result (λ answer. ForEach
        (CanBegin H.hash_of run.old (first ∷ pipelines.old.items))
        (RanFront H.hash_of (first ∷ pipelines.old.items) run.old run.new pipelines.new.items
        answer)) }
    ensures noted { OnOk result (ForEach
        (CanBegin H.hash_of run.old (first ∷ pipelines.old.items))
        (Keeps run.old (NotedAt run.old (first ∷ pipelines.old.items))
        (NotedAt run.new pipelines.new.items))) }
    ensures err { IfErr result (λ e. ForEach
        (CanBegin H.hash_of run.old (first ∷ pipelines.old.items))
        (TellsEachPlan run.old.runner.context.row_limit e)) }
    ensures frame { IfOk result (λ answer. ForEach
        (CanBegin H.hash_of run.old (first ∷ pipelines.old.items)) (IsRootAnswer answer)) }
    ensures lowers { IfOk result (λ answer. ForEach
        (CanBegin H.hash_of run.old (first ∷ pipelines.old.items))
        (LowersRoot run.old run.new answer)) }
    ensures asked { OnOk result (Rises (C.asked stop.old) (C.asked stop.new)) }
    ensures yes { Counts (stops result) (C.yes stop.old) (C.yes stop.new) }
    ensures last { result ≡ Err RunError.Stopped → C.last_answer stop.new ≡ true }
    ensures paced { OnOk result (TakesPaced (most_of run.old.runner.context)
        (rows_due_of (first ∷ pipelines.old.items))
        (rows_due_of pipelines.new.items) (C.asked stop.old) (C.asked stop.new)) }
    ensures kept { OnOk result (HasKeptPace (C.asked stop.old) (C.asked stop.new)
        run.old.runner run.new.runner) }
    ensures context { run.new.runner.context ≡ run.old.runner.context }
    ensures closed { OnOk result (NoneOpen run.old.runner → NoneOpen run.new.runner) }
{
    let mut fed = Vec::new(alloc);
    let mut answer = None;
    let mut current = first;
    'branches: loop {
        let more = run_way(alloc, tools, stop, run, pipelines, current, &mut fed)?;
        answer = newer(answer, more);
        if are_closed(&run.counts, fed.as_slice()) {
            return Ok(answer);
        }
        let Some(next) = pipelines.pop_front() else {
            unreachable!()
        };
        current = next;
    }
}

/// Runs pipelines that stand for the branches of a plan, in order, to the last: the rows of the root. No node has more
/// rows than the limit. What the legs did is the journal, leg by leg, in place of what it held. `Stopped` where the stop
/// check said yes, after which it isn't asked again; else it said no each time.
pub(crate) fn run_fronts<R: Threads + Sync, H: KeyHasher, C: StopCheck, G: Gate + Sync>(
    alloc: Global,
    tools: &Tools<R, G>,
    stop: &mut C,
    mut run: PlanRun<H>,
    pipelines: Vec<PlanLine<H>>,
    journal: &mut Vec<Event>,
) -> Result<DataFrame, RunError>
    requires can { ForSome (CanRun H.hash_of run pipelines.items) }
    requires parked { run.parked.items ≡ [] }
    ensures root { IfOk result (λ frame. ForEach (CanRun H.hash_of run pipelines.items)
        (HasRoot frame)) }
    ensures frame { IfOk result (λ frame. ForEach (CanRun H.hash_of run pipelines.items)
        (HasRootSchema frame)) }
    ensures within { OnOk result (ForEach (CanRun H.hash_of run pipelines.items)
        (RunsWithin run.runner.context.row_limit)) }
    ensures journal { OnOk result (ForEach (CanRun H.hash_of run pipelines.items)
        (Keeps run (NotedAt run pipelines.items) (WroteWhole journal.new.items))) }
    ensures err { IfErr result (λ e. ForEach (CanRun H.hash_of run pipelines.items)
        (TellsEachPlan run.runner.context.row_limit e)) }
    ensures asked { OnOk result (Rises (C.asked stop.old) (C.asked stop.new)) }
    ensures yes { Counts (stops result) (C.yes stop.old) (C.yes stop.new) }
    ensures last { result ≡ Err RunError.Stopped → C.last_answer stop.new ≡ true }
    ensures paced { OnOk result (TakesPaced (most_of run.runner.context)
        (rows_due_of pipelines.items) 0 (C.asked stop.old) (C.asked stop.new)) }
    ensures kept { OnOk result (KeepsPace run.runner.context.workers run.runner.context.chunk_rows
        (C.asked stop.old) (C.asked stop.new) run.runner.journal.items journal.new.items) }
{
    let mut left = VecDeque::from_vec(pipelines);
    let mut answer = None;
    'fronts: while let Some(first) = left.pop_front() {
        let more = run_front(alloc, tools, stop, &mut run, first, &mut left)?;
        answer = newer(answer, more);
    }
    let Some(frame) = answer else { unreachable!() };
    *journal = replace(&mut run.runner.journal, Vec::new(alloc));
    Ok(frame)
}
