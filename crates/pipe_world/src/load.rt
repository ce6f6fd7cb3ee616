//! Rows on their way.

ghost use Rattle.std.specs.Prelude.{◌≡◌};
ghost use Rattle.pipe_events.specs.Worlds.{load_of};

use pipe_frame::Row;
use pipe_schema::List;
use std::marker::Model;

/// Rows that a worker has on their way, from a node.
#[derive(Debug)]
pub struct Load {
    worker: u32,
    node: usize,
    rows: List<Row>,
}

impl Drop for Load {
    fn drop(self) {
        let Load {
            worker: _,
            node: _,
            rows,
        } = self;
        drop(rows);
    }
}

impl Model for Load {
    ghost use Rattle.pipe_events.specs.Worlds.{Load as Carried};

    ghost Value = { Carried };

    ghost view = { λ l. record { worker = l.worker; node = l.node; rows = l.rows } };
}

impl Load {
    /// Rows that a worker has on their way, from a node.
    pub fn new(worker: u32, node: usize, rows: List<Row>) -> Load
        ensures { result ≡ load_of worker node rows }
    {
        Load { worker, node, rows }
    }

    /// Who has them.
    pub fn worker(&self) -> u32
        ensures { result ≡ self.now.worker }
    {
        self.worker
    }

    /// Where they come from.
    pub fn node(&self) -> usize
        ensures { result ≡ self.now.node }
    {
        self.node
    }

    /// The rows.
    pub fn rows(&self) -> &[Row]
        ensures { result.now ≡ self.now.rows }
    {
        self.rows.as_slice()
    }
}
