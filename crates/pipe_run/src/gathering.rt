//! The lanes' sinks in one.

ghost use Rattle.std.specs.Prelude.{◌≡◌, ◌+◌, ◌≤◌, ◌++◌, length, All, IfOk, Err, true, vec_len};
ghost use Rattle.std.specs.List.{flat_map};
ghost use Rattle.pipe_schema.specs.Counts.{Counts};
ghost use Rattle.pipe_schema.specs.Rows.{Same};
ghost use Rattle.pipe_run.specs.Gathered.{FirstCombined};
ghost use Rattle.pipe_run.specs.Halts.{stops};
ghost use Rattle.pipe_run.specs.Lanes.{IsSet, held_in};

use crate::halt::Halt;
use crate::lane::Lane;
use crate::stage::{LaneFault, SinkStage};
use pipe_chain::Operator;
use pipe_ops::Sink;
use pipe_schema::StopCheck;
use std::alloc::Global;

/// Combines the sinks of all lanes into one, in the order of the lanes. The stop check is asked before each of them.
/// `Stopped` where it said yes; `Memory`.
pub fn gather<O: Operator + Drop, K: Sink + Drop, C: StopCheck>(
    alloc: Global,
    stop: &mut C,
    mut lanes: Vec<Lane<O, K>>,
    sink: &mut K,
) -> Result<(), Halt>
    requires settings { All (IsSet K.setting (K.setting sink.old)) lanes.items }
    requires schemas { All (IsSet K.schema (K.schema sink.old)) lanes.items }
    requires room { length (K.held sink.old) + length (flat_map (held_in K.held) lanes.items)
        ≤ 4294967294 }
    ensures setting { K.setting sink.new ≡ K.setting sink.old }
    ensures schema { K.schema sink.new ≡ K.schema sink.old }
    ensures gives { K.gives sink.new ≡ K.gives sink.old }
    ensures held { IfOk result (λ _. Same (K.held sink.new)
        (K.held sink.old ++ flat_map (held_in K.held) lanes.items)) }
    ensures asked { IfOk result (λ _. Counts (vec_len lanes) (C.asked stop.old)
        (C.asked stop.new)) }
    ensures yes { Counts (stops result) (C.yes stop.old) (C.yes stop.new) }
    ensures last { result ≡ Err Halt.Stopped → C.last_answer stop.new ≡ true }
    ensures stopped { result ≡ Err Halt.Stopped → FirstCombined K.held lanes.items
        (C.asked stop.old) (C.asked stop.new) (K.held sink.old) (K.held sink.new) }
{
    lanes.reverse();
    while let Some(lane) = lanes.pop() {
        if stop.should_stop() {
            return Err(Halt::Stopped);
        }
        let Lane {
            stages,
            flushers,
            target,
            seat,
            entries,
            refused: _,
        } = lane;
        drop(stages);
        drop(flushers);
        drop(seat);
        drop(entries);
        let SinkStage {
            sink: other,
            node: _,
            given: _,
        } = target;
        let Ok(()) = sink.combine(alloc, other) else {
            return Err(Halt::Refused(LaneFault::Memory));
        };
    }
    Ok(())
}
