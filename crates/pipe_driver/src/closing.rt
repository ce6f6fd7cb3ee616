//! Where a call ends: the sinks that it fed are closed, and the newest answer is its answer.

ghost use Rattle.std.specs.Prelude.{◌≡◌, ℕ, ◌<◌, true, false};
ghost use Rattle.pipe_driver.specs.Ways.{occurs};
ghost use Rattle.pipe_driver.specs.Tables.{number_at};
ghost use Rattle.pipe_driver.specs.Fronts.{newer_of};

use crate::sink_counts::SinkCounts;
use pipe_frame::DataFrame;

/// Whether no leg feeds any of these sinks any more.
pub fn are_closed(counts: &SinkCounts, sinks: &[u32]) -> bool
    ensures yes { result ≡ true → (n : ℕ) → 0 < occurs n sinks.now →
        number_at counts.now.left.items n ≡ 0 }
    ensures open { result ≡ false →
        (n : ℕ) × (0 < occurs n sinks.now) × (0 < number_at counts.now.left.items n) }
{
    for sink in sinks {
        if counts.left_at(*sink) > 0 {
            return false;
        }
    }
    true
}

/// The newer answer, where there is one.
pub fn newer(answer: Option<DataFrame>, more: Option<DataFrame>) -> Option<DataFrame>
    ensures { result ≡ newer_of more answer }
{
    match more {
        Some(frame) => {
            drop(answer);
            Some(frame)
        }
        None => answer,
    }
}
