//! The frame of a leg that goes through no operator into the root's sink.

ghost use Rattle.std.specs.Prelude.{◌≡◌, ◌++◌, ◌+◌, ◌≤◌, All, Some, length, IfOk, IfErr, OnOk};
ghost use Rattle.pipe_schema.specs.Rows.{Same};
ghost use Rattle.pipe_passage.specs.Passages.{IsUnderWay};
ghost use Rattle.pipe_run.specs.Dealt.{nodes_in};
ghost use Rattle.pipe_run.specs.Lanes.{IsSet};
ghost use Rattle.pipe_slots.specs.SinkWords.{sink_words};
ghost use Rattle.pipe_slots.specs.Sinks.{setting_in, sink_rows, sink_schema};
ghost use Rattle.pipe_engine.specs.Asked.{WasAsked, stops};
ghost use Rattle.pipe_engine.specs.Engine.{fed_rows, rows_of_leg, whole_rows};
ghost use Rattle.pipe_engine.specs.Refused.{IsNotMany};
ghost use Rattle.pipe_engine.specs.Wholes.{HasSameRows, IsKeptFrame, IsUnder, newer_whole};

use crate::engine::FedSink;
use crate::leg::combine;
use pipe_driver::{RunError, SinkAt};
use pipe_frame::{DataChunk, DataFrame};
use pipe_index::HashesKeys;
use pipe_ops::{PExecutionContext, Sink};
use pipe_passage::Passage;
use pipe_rows::KeyHasher;
use pipe_run::Stage;
use pipe_schema::StopCheck;
use pipe_slots::{PhysOperator, PhysSink};
use std::alloc::Global;

/// The frame of a leg's source, where it goes through no operator into the root's sink. What the answer gets is then the
/// frame itself rather than its rows stacked again.
pub(crate) fn kept_frame<H: HashesKeys>(
    at: SinkAt,
    stages: &[Stage<PhysOperator<H>>],
    frame: Option<DataFrame>,
) -> Option<DataFrame>
    ensures { IsKeptFrame at stages.now frame result }
{
    match at {
        SinkAt::Ordered => {
            if stages.is_empty() {
                return frame;
            }
            None
        }
        SinkAt::Sort(_) => None,
        SinkAt::Build(_) => None,
    }
}

/// A frame, if there is one, goes into a sink as one chunk.
fn put_whole<H: KeyHasher>(
    alloc: Global,
    context: &PExecutionContext,
    sink: &mut PhysSink<H>,
    whole: Option<DataFrame>,
) -> Result<(), RunError>
    requires schema { IsUnder (sink_schema sink.old) whole }
    requires room { length (sink_rows sink.old) + length (whole_rows whole) ≤ 4294967294 }
    ensures setting { setting_in sink.new ≡ setting_in sink.old }
    ensures rows { OnOk result (Same (sink_rows sink.new) (sink_rows sink.old ++ whole_rows whole)) }
    ensures err { IfErr result IsNotMany }
    ensures calm { stops result ≡ 0 }
{
    let Some(frame) = whole else {
        return Ok(());
    };
    match sink.sink(alloc, context, DataChunk::new(0, frame)) {
        Ok(_) => Ok(()),
        Err(_) => Err(RunError::Memory),
    }
}

/// A frame is kept beside what other legs fed. The stop check is asked before. (More rows than the limit don't come: all
/// of them were counted at their node.)
fn keep<H: KeyHasher, C: StopCheck>(
    alloc: Global,
    stop: &mut C,
    context: &PExecutionContext,
    fed: FedSink<H>,
    frame: DataFrame,
) -> Result<FedSink<H>, RunError>
    requires schema { IsUnder (sink_schema fed.sink) fed.whole }
    requires held { length (fed_rows fed) ≤ fed.rows }
    requires within { fed.rows ≤ context.now.row_limit }
    requires few { length frame.rows ≤ context.now.row_limit }
    ensures setting { IfOk result (λ new. setting_in new.sink ≡ setting_in fed.sink) }
    ensures rows { IfOk result (λ new. Same (fed_rows new) (fed_rows fed ++ frame.rows)) }
    ensures held { IfOk result (λ new. length (fed_rows new) ≤ new.rows) }
    ensures within { IfOk result (λ new. new.rows ≤ context.now.row_limit) }
    ensures whole { IfOk result (λ new. new.whole ≡ Some frame) }
    ensures err { IfErr result IsNotMany }
    ensures asked { WasAsked C.StopCheck 1 stop.old stop.new result }
{
    if stop.should_stop() {
        return Err(RunError::Stopped);
    }
    let FedSink {
        mut sink,
        rows,
        whole,
    } = fed;
    let all = rows + frame.height() as u64;
    if all > context.row_limit as u64 {
        return Err(RunError::Memory);
    }
    put_whole(alloc, context, &mut sink, whole)?;
    Ok(FedSink {
        sink,
        rows: all,
        whole: Some(frame),
    })
}

/// The rows of a leg go to the sink that it feeds: its frame, or what its lanes' sinks hold. The stop check is asked before
/// each of these.
pub(crate) fn take_in<H: KeyHasher, C: StopCheck>(
    alloc: Global,
    stop: &mut C,
    context: &PExecutionContext,
    fed: FedSink<H>,
    passage: Passage<H, PhysSink<H>>,
    whole: Option<DataFrame>,
) -> Result<FedSink<H>, RunError>
    requires way { IsUnderWay H.hash_of sink_words context.now.row_limit passage.lanes.items
        passage.shared.items passage.seats.items }
    requires left { length (nodes_in passage.lanes.items) ≡ 1 }
    requires settings { All (IsSet setting_in (setting_in fed.sink)) passage.lanes.items }
    requires schema { IsUnder (sink_schema fed.sink) fed.whole }
    requires held { length (fed_rows fed) ≤ fed.rows }
    requires within { fed.rows ≤ context.now.row_limit }
    requires same { HasSameRows (rows_of_leg passage) whole }
    ensures setting { IfOk result (λ new. setting_in new.sink ≡ setting_in fed.sink) }
    ensures rows { IfOk result (λ new. Same (fed_rows new) (fed_rows fed ++ rows_of_leg passage)) }
    ensures held { IfOk result (λ new. length (fed_rows new) ≤ new.rows) }
    ensures within { IfOk result (λ new. new.rows ≤ context.now.row_limit) }
    ensures whole { IfOk result (λ new. new.whole ≡ newer_whole fed.whole whole) }
    ensures err { IfErr result IsNotMany }
    ensures asked { WasAsked C.StopCheck 1 stop.old stop.new result }
{
    match whole {
        None => combine(alloc, stop, context, fed, passage),
        Some(frame) => {
            drop(passage);
            keep(alloc, stop, context, fed, frame)
        }
    }
}
