//! The law of calls that run a front part of a plan's pipelines.

ghost use Rattle.std.specs.Prelude.{List};
ghost use Rattle.pipe_ops.specs.declared.context.PExecutionContext.{PExecutionContext as Context};
ghost use Rattle.pipe_driver.specs.declared.sink_counts.SinkCounts.{SinkCounts as Counts};
ghost use Rattle.pipe_slots.specs.declared.slots.Slots.{Slots};
ghost use Rattle.pipe_engine.specs.Known.{Asked};
ghost use Rattle.pipe_lines.specs.Fronts.{StandForLeft};
ghost use Rattle.pipe_lines.specs.Running.{StandForBranches};
ghost use Rattle.pipe_lines.specs.declared.pipe_line.PipeLine.{PipeLine as Line};

use pipe_rows::KeyHasher;

/// Where no pipeline of a plan has run, all of them are left.
pub fn none_run_all_left<H: KeyHasher>()
    ensures { (asked : Asked H) (context : Context) (pipelines : List (Line H)) (slots : Slots H)
        (counts : Counts) → StandForBranches H.hash_of asked context pipelines slots counts →
        StandForLeft H.hash_of asked context pipelines slots counts }
{}
