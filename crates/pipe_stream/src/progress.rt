//! How far the caller has come.

ghost use Rattle.std.specs.Prelude.{◌≡◌, ◌&&◌, ◌||◌, not, true, false, []};
ghost use Rattle.pipe_stream.specs.Desk.{share, with_share};

use pipe_schema::List;
use std::alloc::Global;

/// How far one worker's blocks are put.
#[derive(Clone, Copy)]
pub struct Share {
    /// Whether its thread was started.
    pub started: bool,
    /// Whether it told that it has ended.
    pub ended: bool,
    /// Where the blocks that aren't put begin.
    pub next: u32,
}

impl Share {
    /// Nothing of a worker's blocks is put.
    fn new(started: bool) -> Share
        ensures { result ≡ record { started = started; ended = false; next = 0 } }
    {
        Share {
            started,
            ended: false,
            next: 0,
        }
    }

    /// Whether a message of the worker is still to come.
    fn is_running(&self) -> bool
        ensures { result ≡ (self.now.started && not self.now.ended) }
    {
        self.started && !self.ended
    }
}

/// Which blocks are put, in order, and how far each worker's are.
#[derive(Drop)]
pub struct Progress {
    pub order: List<u32>,
    pub even: Share,
    pub odd: Share,
}

impl Progress {
    /// Nothing is put.
    pub(crate) fn new(alloc: Global, even: bool, odd: bool) -> Progress
        ensures { result ≡ record {
          order = [];
          even = record { started = even; ended = false; next = 0 };
          odd = record { started = odd; ended = false; next = 0 };
        } }
    {
        Progress {
            order: List::new(alloc),
            even: Share::new(even),
            odd: Share::new(odd),
        }
    }

    /// The share of a worker.
    pub(crate) fn share(&self, odd: bool) -> Share
        ensures { result ≡ share odd self.now }
    {
        if odd { self.odd } else { self.even }
    }

    /// Sets the share of a worker.
    pub(crate) fn set_share(&mut self, odd: bool, share: Share)
        ensures { self.new ≡ with_share odd share self.old }
    {
        if odd {
            self.odd = share;
        } else {
            self.even = share;
        }
    }

    /// A worker has ended.
    pub(crate) fn end(&mut self, odd: bool)
        ensures { self.new ≡ with_share odd (record (share odd self.old) { ended = true }) self.old }
    {
        let share = self.share(odd);
        self.set_share(
            odd,
            Share {
                ended: true,
                ..share
            },
        );
    }

    /// Whether a message of either worker is still to come.
    pub(crate) fn is_running(&self) -> bool
        ensures { result
            ≡ ((self.now.even.started && not self.now.even.ended)
            || (self.now.odd.started && not self.now.odd.ended)) }
    {
        self.even.is_running() || self.odd.is_running()
    }
}
