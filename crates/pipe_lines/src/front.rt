//! A front part of a plan's pipelines, run by a call of the first of them.

ghost use Rattle.std.specs.Prelude.{◌≡◌, ◌∷◌, IfOk, IfErr, OnOk, Err, true};
ghost use Rattle.pipe_schema.specs.Counts.{Counts, Rises};
ghost use Rattle.pipe_engine.specs.Asked.{stops};
ghost use Rattle.pipe_engine.specs.Paced.{TakesPaced, most_of, rows_due_of};
ghost use Rattle.pipe_run.specs.Paced.{KeepsPace};
ghost use Rattle.pipe_lines.specs.Fronts.{ForLeft, ForEachLeft, RanFront, IsFrontAnswer, KeepsJournal};
ghost use Rattle.pipe_lines.specs.Fronts.{answer_of};
ghost use Rattle.pipe_lines.specs.Running.{ways_in, RefusesBy};

use crate::lending::{Lent, Returned, lend, return_lent};
use crate::pipe_line::PipeLine;
use pipe_driver::{RunError, SinkCounts};
use pipe_engine::{Tools, run_front};
use pipe_events::Event;
use pipe_frame::DataFrame;
use pipe_ops::{FinalizedSink, PExecutionContext};
use pipe_rows::KeyHasher;
use pipe_schema::{Gate, StopCheck};
use pipe_slots::Slots;
use pipe_source::PhysSource;
use std::alloc::Global;
use std::thread::Threads;

/// A frame where the root's sink was closed; else the word that the slot of a join was filled.
fn front_answer(answer: Option<DataFrame>) -> FinalizedSink<(), PhysSource>
    ensures { result ≡ answer_of answer }
{
    match answer {
        Some(frame) => FinalizedSink::Finished(frame),
        None => FinalizedSink::Operator(()),
    }
}

impl<H: KeyHasher> PipeLine<H> {
    /// Runs the shortest front part of the branches that are left of a plan, this pipeline first and those behind it,
    /// such that no later branch feeds a sink that a branch of the part feeds (polars-pipe's `run_pipeline`). The others
    /// are left in `pipelines`, in order, and what they share, the counts and the journal are as those that ran left
    /// them. The answer is the frame of the root's rows where this pipeline's last sink is the root's; where that is the
    /// build of a join, that its slot is filled. `Stopped` where the stop check said yes, after which it isn't asked
    /// again; else it said no each time. `TooMany` with a node under the root that has more rows than the context's
    /// limit; `Memory`. After a refusal pipelines, slots, counts and journal are spent.
    pub fn run_pipeline<R: Threads + Sync, C: StopCheck, G: Gate + Sync>(
        &mut self,
        alloc: Global,
        tools: &Tools<R, G>,
        ec: &PExecutionContext,
        pipelines: &mut Vec<PipeLine<H>>,
        slots: &mut Slots<H>,
        counts: &mut SinkCounts,
        stop: &mut C,
        journal: &mut Vec<Event>,
    ) -> Result<FinalizedSink<(), PhysSource>, RunError>
        requires left { ForLeft H.hash_of ec.now (self.old ∷ pipelines.old.items) slots.old
            counts.old }
        ensures front { OnOk result (ForEachLeft H.hash_of ec.now (self.old ∷ pipelines.old.items)
            slots.old counts.old (RanFront H.hash_of ec.now (self.old ∷ pipelines.old.items)
            pipelines.new.items slots.new counts.new)) }
        ensures answer { IfOk result (λ r. ForEachLeft H.hash_of ec.now
            (self.old ∷ pipelines.old.items) slots.old counts.old
            (IsFrontAnswer self.old slots.new r)) }
        ensures journal { OnOk result (ForEachLeft H.hash_of ec.now (self.old ∷ pipelines.old.items)
            slots.old counts.old (KeepsJournal ec.now.workers (self.old ∷ pipelines.old.items)
            pipelines.new.items counts.old counts.new journal.old.items journal.new.items)) }
        ensures err { IfErr result (λ e. ForEachLeft H.hash_of ec.now
            (self.old ∷ pipelines.old.items) slots.old counts.old (RefusesBy ec.now.row_limit e)) }
        ensures asked { OnOk result (Rises (C.asked stop.old) (C.asked stop.new)) }
        ensures yes { Counts (stops result) (C.yes stop.old) (C.yes stop.new) }
        ensures last { result ≡ Err RunError.Stopped → C.last_answer stop.new ≡ true }
        ensures paced { OnOk result (TakesPaced (most_of ec.now)
            (rows_due_of (ways_in (self.old ∷ pipelines.old.items)))
            (rows_due_of (ways_in pipelines.new.items)) (C.asked stop.old) (C.asked stop.new)) }
        ensures kept { OnOk result (KeepsPace ec.now.workers ec.now.chunk_rows
            (C.asked stop.old) (C.asked stop.new) journal.old.items journal.new.items) }
    {
        let Ok(lent) = lend(alloc, *ec, self, pipelines, slots, counts, journal) else {
            return Err(RunError::Memory);
        };
        let Lent {
            mut run,
            first,
            mut others,
        } = lent;
        let answer = run_front(alloc, tools, stop, &mut run, first, &mut others)?;
        let Ok(left) = return_lent(alloc, run, others, ec.workers) else {
            return Err(RunError::Memory);
        };
        let Returned {
            pipelines: waiting,
            slots: shared,
            counts: counted,
            journal: written,
        } = left;
        *pipelines = waiting;
        *slots = shared;
        *counts = counted;
        *journal = written;
        Ok(front_answer(answer))
    }
}
