//! `stream`: the job is read and run, and its rows are written block by block while two workers render them.

ghost use Rattle.std.specs.Prelude.{◌≡◌, ◌≤◌, ◌<◌, ◌∷◌, [], true, length, IfErr, IsErrOf, OnErr, OnOk};
ghost use Rattle.pipe_schema.specs.Counts.{Counts, Rises};
ghost use Rattle.pipe_stream.specs.Outside.{WriteFails};
ghost use Rattle.pipe_cli.specs.Commands.StreamCommand.{stream};
ghost use Rattle.pipe_cli.specs.Contract.{OfInput};
ghost use Rattle.pipe_cli.specs.Outcome.{WroteFrontTold, WroteOn, WroteTold};
ghost use Rattle.pipe_cli.specs.Refused.{OfReading};
ghost use Rattle.pipe_cli.specs.Sources.{IsTakenInPart, IsWhole, Standard};
ghost use Rattle.pipe_cli.specs.Status.{OneOf, status_of, yes_in};
ghost use Rattle.pipe_cli.specs.Streams.{EndsBlocks, OfBlocks, WroteBlocks, WroteBlocksInPart};

use crate::commands::frame_of;
use crate::jobs::job_in;
use crate::status::Refusal;
use crate::streams::{bytes_left, tell};
use pipe_frame::DataFrame;
use pipe_job::head_line;
use pipe_schema::{Gate, StopCheck};
use pipe_stream::{JobReader, RowLines, RowWriter, StreamError, stream_frame};
use std::alloc::Global;
use std::sync::Wait;
use std::thread::Threads;

/// Writes a frame: the line of its column names, and then its blocks.
#[tactic(auto, using(crate::proofs::BlockWriting::no_memory, crate::proofs::BlockWriting::head_failed, crate::proofs::BlockWriting::blocks_put, crate::proofs::BlockWriting::blocks_failed, crate::proofs::BlockWriting::later_fault, crate::proofs::BlockWriting::always_err))]
fn put_frame<T: Threads + Wait + Sync, W: RowWriter>(
    rt: &T,
    alloc: Global,
    frame: &DataFrame,
    block_rows: u32,
    out: &mut W,
) -> Result<(), Refusal>
    requires rows { 0 < block_rows }
    requires height { length frame.now.rows ≤ 4294967294 }
    ensures wrote { OnOk result
        (WroteBlocks frame.now block_rows (W.seen out.old) (W.seen out.new)) }
    ensures front { OnErr result
        (WroteBlocksInPart frame.now block_rows (W.seen out.old) (W.seen out.new)) }
    ensures only { IfErr result (λ r. OneOf (9 ∷ 10 ∷ []) (status_of r)) }
    ensures cause { IsErrOf result Refusal.WriteFault
        → WriteFails (W.seen out.old) (W.seen out.new) }
{
    let head = head_line(alloc, frame.schema())?;
    tell(out, head.as_slice())?;
    match stream_frame(rt, alloc, frame, block_rows, &RowLines, out) {
        Ok(_) => Ok(()),
        Err(StreamError::PutFault) => Err(Refusal::WriteFault),
        Err(StreamError::Memory) => Err(Refusal::Memory),
    }
}

/// Runs the job that the bytes are, and writes its rows.
#[tactic(auto, using(crate::proofs::BlockWriting::height_fits, crate::proofs::BlockWriting::some_rows, crate::proofs::BlockWriting::all_wrote, crate::proofs::BlockWriting::all_failed, crate::proofs::BlockWriting::unread_job, crate::proofs::BlockWriting::unrun_job, crate::proofs::RuleLemmas::counts_none))]
fn stream_job<T: Threads + Wait + Sync, W: RowWriter, C: StopCheck, G: Gate + Sync>(
    rt: &T,
    alloc: Global,
    bytes: Vec<u8>,
    out: &mut W,
    stop: &mut C,
    gate: &G,
) -> Result<(), Refusal>
    ensures ok { OnOk result (WroteOn stream (W.seen out.old) (W.seen out.new) bytes.items) }
    ensures err { IfErr result (λ r.
        EndsBlocks r (W.seen out.old) (W.seen out.new) bytes.items) }
    ensures asked { OnOk result (Rises (C.asked stop.old) (C.asked stop.new)) }
    ensures yes { Counts (yes_in result) (C.yes stop.old) (C.yes stop.new) }
    ensures last { IsErrOf result Refusal.Stopped → C.last_answer stop.new ≡ true }
{
    let job = job_in(alloc, bytes)?;
    let frame = frame_of(rt, alloc, &job, stop, gate)?;
    let block_rows = job.config.chunk_rows;
    // the job's frames aren't held beside the blocks
    drop(job);
    put_frame(rt, alloc, &frame, block_rows, out)
}

/// Reads the job that is left, runs it, and writes its rows.
#[tactic(auto, using(crate::proofs::BlockWriting::wrote_all, crate::proofs::BlockWriting::blocks_input, crate::proofs::BlockWriting::blocks_output, crate::proofs::BlockWriting::blocks_reading, crate::proofs::BlockWriting::blocks_only, crate::proofs::BlockWriting::job_short, crate::proofs::BlockWriting::early_blocks, crate::proofs::BlockWriting::early_any, crate::proofs::RuleLemmas::early_input, crate::proofs::RuleLemmas::early_going, crate::proofs::RuleLemmas::early_passed))]
pub(crate) fn stream_left<
    T: Threads + Wait + Sync,
    R: JobReader,
    W: RowWriter,
    C: StopCheck,
    G: Gate + Sync,
>(rt: &T, alloc: Global, input: &mut R, out: &mut W, stop: &mut C, gate: &G) -> Result<(), Refusal>
    ensures read { OnOk result (IsWhole (R.seen input.old).left (R.seen input.new)) }
    ensures wrote { OnOk result
        (WroteTold stream (R.seen input.old).left (W.seen out.old) (W.seen out.new)) }
    ensures reading { IfErr result (λ r.
        OfReading r (R.seen input.old).left (R.seen input.old) (R.seen input.new)) }
    ensures most { IsErrOf result Refusal.TooLong
        → IsTakenInPart Standard (R.seen input.old) (R.seen input.new) }
    ensures input { IfErr result (λ r. OfInput stream r (R.seen input.old).left) }
    ensures output { IfErr result (λ r. OfBlocks r
        (WroteFrontTold stream (R.seen input.old).left (W.seen out.old) (W.seen out.new))
        (W.seen out.old) (W.seen out.new)) }
    ensures only { IfErr result (λ r. OneOf (2 ∷ 3 ∷ 4 ∷ 5 ∷ 6 ∷ 7 ∷ 8 ∷ 9 ∷ 10 ∷ []) (status_of r)) }
    ensures asked { OnOk result (Rises (C.asked stop.old) (C.asked stop.new)) }
    ensures yes { Counts (yes_in result) (C.yes stop.old) (C.yes stop.new) }
    ensures last { IsErrOf result Refusal.Stopped → C.last_answer stop.new ≡ true }
{
    let bytes = bytes_left(alloc, input)?;
    stream_job(rt, alloc, bytes, out, stop, gate)
}
