//! What a pipeline's call takes over from its caller, and gives back.

ghost use Rattle.std.specs.Prelude.{◌≡◌, ◌∷◌, [], IfOk};
ghost use Rattle.std.specs.List.{AllByRecursion};
ghost use Rattle.pipe_driver.specs.Plans.{task_of};
ghost use Rattle.pipe_driver.specs.Runs.{Between};
ghost use Rattle.pipe_engine.specs.Engine.{engine_words, NoneOpen};
ghost use Rattle.pipe_engine.specs.Known.{Asked};
ghost use Rattle.pipe_engine.specs.Left.{Shares};
ghost use Rattle.pipe_lines.specs.Cuts.{IsLineFor};
ghost use Rattle.pipe_lines.specs.Fronts.{StandForLeft};
ghost use Rattle.pipe_lines.specs.Running.{ways_in};

use crate::pipe_line::PipeLine;
use crate::pipeline::lines_to_run;
use pipe_driver::{PipeLine as Line, SinkCounts};
use pipe_engine::{PlanLine, PlanRun, assemble_run, give_back};
use pipe_events::Event;
use pipe_index::HashesKeys;
use pipe_ops::PExecutionContext;
use pipe_rows::KeyHasher;
use pipe_slots::Slots;
use std::alloc::{AllocError, Global};
use std::collections::VecDeque;
use std::mem::replace;

/// What runs pipelines, the first of them, and the others.
#[derive(Drop)]
pub(crate) struct Lent<H: HashesKeys> {
    pub run: PlanRun<H>,
    pub first: PlanLine<H>,
    pub others: VecDeque<PlanLine<H>>,
}

/// What pipelines leave: those that haven't run, and what they share.
#[derive(Drop)]
pub(crate) struct Returned<H: HashesKeys> {
    pub pipelines: Vec<PipeLine<H>>,
    pub slots: Slots<H>,
    pub counts: SinkCounts,
    pub journal: Vec<Event>,
}

/// Takes the legs of a pipeline, and of those behind it.
fn take_lines<H: KeyHasher>(
    alloc: Global,
    first: &mut PipeLine<H>,
    others: &mut Vec<PipeLine<H>>,
) -> Result<Vec<PlanLine<H>>, AllocError>
    ensures { IfOk result (λ lines. lines.items ≡ ways_in (first.old ∷ others.old.items)) }
{
    let none = Line {
        start: 0,
        source: None,
        legs: Vec::new(alloc),
    };
    let way = replace(&mut first.way, none);
    let mut rest = lines_to_run(alloc, replace(others, Vec::new(alloc)))?;
    let mut lines = Vec::new(alloc);
    lines.push(way)?;
    lines.append(&mut rest)?;
    Ok(lines)
}

/// Takes over pipelines with what they share, to run a front part of them.
pub(crate) fn lend<H: KeyHasher>(
    alloc: Global,
    context: PExecutionContext,
    first: &mut PipeLine<H>,
    pipelines: &mut Vec<PipeLine<H>>,
    slots: &mut Slots<H>,
    counts: &mut SinkCounts,
    journal: &mut Vec<Event>,
) -> Result<Lent<H>, AllocError>
    ensures between { IfOk result (λ lent. (asked : Asked H) →
        StandForLeft H.hash_of asked context (first.old ∷ pipelines.old.items) slots.old
        counts.old →
        Between (engine_words H.hash_of asked.settings) (task_of asked.ask) lent.run
        (lent.first ∷ lent.others.items)) }
    ensures lines { IfOk result
        (λ lent. lent.first ∷ lent.others.items ≡ ways_in (first.old ∷ pipelines.old.items)) }
    ensures context { IfOk result (λ lent. lent.run.runner.context ≡ context) }
    ensures journal { IfOk result (λ lent. lent.run.runner.journal ≡ journal.old) }
    ensures parked { IfOk result (λ lent. lent.run.parked.items ≡ []) }
    ensures counts { IfOk result (λ lent. lent.run.counts ≡ counts.old) }
    ensures none_open { IfOk result (λ lent. NoneOpen lent.run.runner) }
{
    let lines = take_lines(alloc, first, pipelines)?;
    let none = Slots {
        slots: Vec::new(alloc),
        seats: Vec::new(alloc),
        workers: context.workers,
        given: Vec::new(alloc),
    };
    let no_counts = SinkCounts {
        left: Vec::new(alloc),
    };
    let shared = replace(slots, none);
    let counted = replace(counts, no_counts);
    let written = replace(journal, Vec::new(alloc));
    let run = assemble_run(alloc, context, shared, counted, written, lines.as_slice())?;
    let mut others = VecDeque::from_vec(lines);
    let Some(first) = others.pop_front() else {
        unreachable!()
    };
    Ok(Lent { run, first, others })
}

/// Legs as pipelines, for so many workers.
fn wrap_lines<H: KeyHasher>(
    alloc: Global,
    mut ways: VecDeque<PlanLine<H>>,
    workers: u32,
) -> Result<Vec<PipeLine<H>>, AllocError>
    ensures ways { IfOk result (λ lines. ways_in lines.items ≡ ways.items) }
    ensures workers { IfOk result (λ lines. AllByRecursion (IsLineFor workers) lines.items) }
{
    let mut lines = Vec::new(alloc);
    'ways: while let Some(way) = ways.pop_front() {
        lines.push(PipeLine { way, workers })?;
    }
    Ok(lines)
}

/// What pipelines left that were run, given back.
pub(crate) fn return_lent<H: KeyHasher>(
    alloc: Global,
    run: PlanRun<H>,
    others: VecDeque<PlanLine<H>>,
    workers: u32,
) -> Result<Returned<H>, AllocError>
    ensures ways { IfOk result (λ left. ways_in left.pipelines.items ≡ others.items) }
    ensures workers { IfOk result
        (λ left. AllByRecursion (IsLineFor workers) left.pipelines.items) }
    ensures shares { IfOk result (λ left. Shares left.slots run.runner) }
    ensures counts { IfOk result (λ left. left.counts ≡ run.counts) }
    ensures journal { IfOk result (λ left. left.journal ≡ run.runner.journal) }
{
    let pipelines = wrap_lines(alloc, others, workers)?;
    let (slots, counts, journal) = give_back(run);
    Ok(Returned {
        pipelines,
        slots,
        counts,
        journal,
    })
}
