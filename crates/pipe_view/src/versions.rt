//! What the version says of the types.

ghost use Rattle.std.specs.Prelude.{◌≡◌};
ghost use Rattle.pipe_view.specs.ReplaySpelling.{replay_has_int128, replay_task};

use crate::replay::Replay;
use pipe_job::{any_has_int128, fields_have_int128};

/// Whether a column of a table or a literal of a key has the type Int128.
pub(crate) fn replay_has_int128(replay: &Replay) -> bool
    ensures { result ≡ replay_has_int128 (replay_task replay.now) }
{
    fields_have_int128(replay.left.schema().fields())
        || fields_have_int128(replay.right.schema().fields())
        || any_has_int128(replay.join.left_on.as_slice())
        || any_has_int128(replay.join.right_on.as_slice())
}
