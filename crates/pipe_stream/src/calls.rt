//! Calls of which some are to fail: what readers and writers in memory count.

ghost use Rattle.std.specs.Prelude.{◌≡◌, ◌≤◌, IsTrue};
ghost use Rattle.pipe_schema.specs.Counts.{Rises};
ghost use Rattle.pipe_stream.specs.Memory.{call_number, is_listed};

use pipe_schema::List;

/// Calls, counted from 1, of which those with given numbers fail.
#[derive(Debug, Drop)]
pub(crate) struct Calls {
    pub(crate) failing: List<u64>,
    pub(crate) made: u64,
    pub(crate) failed: u64,
}

impl Calls {
    /// No call so far.
    pub(crate) fn new(failing: List<u64>) -> Calls
        ensures { result ≡ record { failing = failing; made = 0; failed = 0 } }
    {
        Calls {
            failing,
            made: 0,
            failed: 0,
        }
    }

    /// Counts a fault.
    pub(crate) fn fail(&mut self)
        ensures rises { Rises self.old.failed self.new.failed }
        ensures faults { self.old.failed ≤ self.new.failed }
        ensures made { self.new.made ≡ self.old.made }
        ensures failing { self.new.failing ≡ self.old.failing }
    {
        self.failed = self.failed.saturating_add(1);
    }

    /// Whether the next call fails, which is then counted as a fault.
    pub(crate) fn next_fails(&mut self) -> bool
        ensures made { self.new.made ≡ call_number self.old.made }
        ensures fails { result ≡ is_listed self.new.made self.old.failing }
        ensures failing { self.new.failing ≡ self.old.failing }
        ensures cause { IsTrue result → Rises self.old.failed self.new.failed }
        ensures faults { self.old.failed ≤ self.new.failed }
    {
        self.made = self.made.saturating_add(1);
        let fails = self.failing.as_slice().contains(&self.made);
        if fails {
            self.fail();
        }
        fails
    }
}
