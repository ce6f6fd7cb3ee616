//! The branches of a plan, from the first to the last.

ghost use Rattle.std.specs.Prelude.{◌≡◌, IfOk, IfErr, OnOk, Err, true};
ghost use Rattle.pipe_schema.specs.Counts.{Counts, Rises};
ghost use Rattle.pipe_engine.specs.Asked.{stops};
ghost use Rattle.pipe_engine.specs.Drives.{ForPlan, AnswersPlan, AnswersSchema, KeepsLimit, EndsPlan};
ghost use Rattle.pipe_engine.specs.Journals.{JournalsPlan};
ghost use Rattle.pipe_engine.specs.Paced.{TakesPaced, most_of, rows_due_of};
ghost use Rattle.pipe_run.specs.Paced.{KeepsPace};

use crate::engine::{PlanLine, PlanRun, Tools};
use crate::running::run_fronts;
use pipe_driver::RunError;
use pipe_events::Event;
use pipe_frame::DataFrame;
use pipe_rows::KeyHasher;
use pipe_schema::{Gate, StopCheck};
use std::alloc::Global;
use std::thread::Threads;

/// Runs pipelines that stand for the branches of a plan: the rows of its root. No node under that has more rows than
/// the limit. What the legs did is the journal, a complete list of events of the plan. To each question of the stop
/// check the workers take at most four chunks each of the pipelines' sources, by the rows and by the journal. `Stopped`
/// where it said yes, after which it isn't asked again; else it said no each time. `TooMany` with a node under the root
/// that has more rows than the limit; `Memory`.
pub fn execute_branches<R: Threads + Sync, H: KeyHasher, C: StopCheck, G: Gate + Sync>(
    alloc: Global,
    tools: &Tools<R, G>,
    stop: &mut C,
    run: PlanRun<H>,
    pipelines: Vec<PlanLine<H>>,
    journal: &mut Vec<Event>,
) -> Result<DataFrame, RunError>
    requires stand { ForPlan H.hash_of run pipelines.items }
    ensures rows { IfOk result (AnswersPlan H.hash_of run pipelines.items) }
    ensures frame { IfOk result (AnswersSchema H.hash_of run pipelines.items) }
    ensures within { OnOk result (KeepsLimit H.hash_of run pipelines.items) }
    ensures journal { OnOk result (JournalsPlan H.hash_of run pipelines.items journal.new.items) }
    ensures err { IfErr result (EndsPlan H.hash_of run pipelines.items) }
    ensures asked { OnOk result (Rises (C.asked stop.old) (C.asked stop.new)) }
    ensures yes { Counts (stops result) (C.yes stop.old) (C.yes stop.new) }
    ensures last { result ≡ Err RunError.Stopped → C.last_answer stop.new ≡ true }
    ensures paced { OnOk result (TakesPaced (most_of run.runner.context)
        (rows_due_of pipelines.items) 0 (C.asked stop.old) (C.asked stop.new)) }
    ensures kept { OnOk result (KeepsPace run.runner.context.workers run.runner.context.chunk_rows
        (C.asked stop.old) (C.asked stop.new) run.runner.journal.items journal.new.items) }
{
    run_fronts(alloc, tools, stop, run, pipelines, journal)
}
