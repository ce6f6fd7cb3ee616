//! The answer of a run.

ghost use Rattle.std.specs.Prelude.{◌≡◌};

use pipe_events::Event;
use pipe_frame::DataFrame;
use pipe_schema::List;

/// What a run wrote down, in order: what its workers took of which source, each followed by its end, and which sides
/// were closed.
#[derive(Debug)]
pub struct Journal {
    pub events: List<Event>,
}

impl Drop for Journal {
    fn drop(self) {
        let Journal { events } = self;
        drop(events);
    }
}

/// The frame of a run's rows, and its journal.
#[derive(Debug)]
pub struct RunAnswer {
    pub frame: DataFrame,
    pub journal: Journal,
}

impl RunAnswer {
    /// The frame alone.
    pub fn into_frame(self) -> DataFrame
        ensures { result ≡ self.frame }
    {
        let RunAnswer { frame, journal: _ } = self;
        frame
    }
}

impl Drop for RunAnswer {
    fn drop(self) {
        let RunAnswer { frame, journal } = self;
        drop(frame);
        drop(journal);
    }
}
