//! Views and their edits: how one is read.

ghost use Rattle.std.specs.Prelude.{IfOk, IfErr};
ghost use Rattle.pipe_view.specs.ReplaySpelling.{ReadsReplay, replay_task};
ghost use Rattle.pipe_cli.specs.Contract.{Unread};
ghost use Rattle.pipe_cli.specs.Replays.{replay_kind};

use crate::status::Refusal;
use pipe_job::JobError;
use pipe_view::{Replay, read_replay};
use std::alloc::Global;

/// What the bytes spell: two tables, their join, a limit and edits of the tables.
pub(crate) fn replay_in(alloc: Global, bytes: Vec<u8>) -> Result<Replay, Refusal>
    ensures ok { IfOk result (λ replay. ReadsReplay bytes.items (replay_task replay)) }
    ensures err { IfErr result (λ refusal. Unread replay_kind refusal bytes.items) }
{
    match read_replay(alloc, bytes.as_slice()) {
        Ok(replay) => Ok(replay),
        Err(JobError::BadText) => Err(Refusal::NotJson),
        Err(JobError::BadJob) => Err(Refusal::NotJob),
        Err(JobError::Memory) => Err(Refusal::Memory),
    }
}
