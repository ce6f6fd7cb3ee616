//! The flags of a leg's joins are closed where a run ends.

ghost use Rattle.std.specs.Prelude.{OnOk};
ghost use Rattle.pipe_passage.specs.Passages.{acts_now};
ghost use Rattle.pipe_passage.specs.Stopped.{HoldSeats, AllOnce};

use crate::leaving::leave_stage;
use crate::passage::Passage;
use pipe_ops::Sink;
use pipe_rows::KeyHasher;
use std::alloc::AllocError;

/// Closes the flags of all joins whose probes a leg hasn't left, where a run ends early: this tells that each of their
/// keys was won by one seat, once. The leg has left all its stages then. The seats go back where they were dealt from, so
/// no memory is taken for them.
pub fn close_passage<H: KeyHasher, K: Sink + Drop>(
    passage: &mut Passage<H, K>,
) -> Result<(), AllocError>
    requires held { HoldSeats H.hash_of passage.old.lanes.items passage.old.shared.items
        passage.old.seats.items }
    ensures once { OnOk result (AllOnce passage.old.shared.items (acts_now H.hash_of
        passage.old.lanes.items passage.old.seats.items)) }
{
    'stages: loop {
        if passage.shared.is_empty() {
            return Ok(());
        }
        let (slot, seats) = leave_stage(passage)?;
        drop(slot.closed(seats));
    }
}
