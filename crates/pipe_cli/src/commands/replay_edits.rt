//! `replay-edits`: a join is kept while its tables are edited, and what each edit did and the rows at the end are told.

ghost use Rattle.std.specs.Prelude.{◌≡◌, IfOk, IfErr, IsErrOf, OnOk};
ghost use Rattle.std.specs.List.{AllByRecursion};
ghost use Rattle.pipe_view.specs.EditSpelling.{EditFits};
ghost use Rattle.pipe_view.specs.ReplayEnds.{AreReplayLines, IsSoundReplay};
ghost use Rattle.pipe_view.specs.ReplaySpelling.{replay_task};
ghost use Rattle.pipe_cli.specs.Answers.{text_of};
ghost use Rattle.pipe_cli.specs.Contract.{Answered, Because, Causes};
ghost use Rattle.pipe_cli.specs.Commands.ReplayEditsCommand.{replay_edits};
ghost use Rattle.pipe_cli.specs.Status.{OneOf, status_of};

use crate::answer::Answer;
use crate::refused::refused;
use crate::replays::replay_in;
use crate::status::Refusal;
use pipe_view::{Replay, replay_lines};
use std::alloc::Global;

/// The lines of a view and its edits.
#[tactic(auto, using(crate::proofs::ReplayLemmas::told_replay))]
fn lines_of(alloc: Global, replay: Replay) -> Result<Vec<u8>, Refusal>
    requires { AllByRecursion (EditFits replay.left.schema replay.right.schema) replay.edits }
    ensures sound { OnOk result (IsSoundReplay (replay_task replay)) }
    ensures lines { IfOk result (λ text. AreReplayLines (replay_task replay) text.items) }
    ensures err { IfErr result (λ r. Because replay_edits r (replay_task replay)) }
    ensures unstopped { IsErrOf result Refusal.Stopped → ⊥ }
{
    match replay_lines(alloc, replay) {
        Ok(text) => Ok(text),
        Err(error) => Err(refused(alloc, error)),
    }
}

/// The lines of the view and the edits that the bytes are.
#[tactic(auto, using(crate::proofs::ReplayLemmas::edits_fit, crate::proofs::ReplayLemmas::unread_replay, crate::proofs::ReplayLemmas::unread_replay_only, crate::proofs::ReplayLemmas::replay_told, crate::proofs::ReplayLemmas::replay_only, crate::proofs::ReplayLemmas::replay_answer))]
pub(crate) fn replay_edits(alloc: Global, bytes: Vec<u8>) -> Result<Answer, Refusal>
    ensures ok { IfOk result (λ answer. Answered replay_edits bytes.items (text_of answer)) }
    ensures err { IfErr result (λ r. Causes replay_edits r bytes.items) }
    ensures only { IfErr result (λ r. OneOf replay_edits.statuses (status_of r)) }
{
    let replay = replay_in(alloc, bytes)?;
    let text = lines_of(alloc, replay)?;
    Ok(Answer::Made(text))
}
