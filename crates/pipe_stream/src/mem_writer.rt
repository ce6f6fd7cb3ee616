//! A writer in memory, some calls of which fail as they are told.

ghost use Rattle.std.specs.Prelude.{◌≡◌, ◌≤◌, ◌<◌, ◌++◌, [], Some, take, length, IfOk, OnErr, IsTrue, is_err};
ghost use Rattle.pipe_schema.specs.Counts.{Rises};
ghost use Rattle.pipe_stream.specs.Memory.{call_number, is_listed, scripted_output};

use crate::calls::Calls;
use crate::outside::{RowWriter, WriteFailed};
use pipe_schema::List;
use std::alloc::Global;
use std::cmp::min;
use std::marker::Model;

/// A writer to memory, some calls of which fail.
#[derive(Debug, Drop)]
pub struct MemWriter {
    bytes: Vec<u8>,
    most: u32,
    calls: Calls,
}

impl Model for MemWriter {
    ghost use Rattle.std.specs.Prelude.{◌<◌};
    ghost use Rattle.pipe_stream.specs.Memory.{ScriptedWriter};

    ghost Value = { ScriptedWriter };

    ghost view = { λ w. record { written = w.bytes.items; most = w.most; failing = w.calls.failing; made = w.calls.made; faults = w.calls.failed } };

    ghost invariant = { λ w. 0 < w.most };
}

impl MemWriter {
    /// A writer that takes at most `most` bytes a write.
    ///
    /// Its writes are counted from 1, and those whose numbers stand in `failing` fail. So does one for which there
    /// is no memory. A write that fails adds nothing.
    pub fn new(alloc: Global, most: u32, failing: List<u64>) -> MemWriter
        requires { 0 < most }
        ensures { result ≡ record {
          written = [];
          most = most;
          failing = failing;
          made = 0;
          faults = 0;
        } }
    {
        MemWriter {
            bytes: Vec::new(alloc),
            most,
            calls: Calls::new(failing),
        }
    }

    /// What was written.
    pub fn bytes(&self) -> &[u8]
        ensures { result.now ≡ self.now.written }
    {
        self.bytes.as_slice()
    }
}

impl RowWriter for MemWriter {
    ghost seen = { λ w. scripted_output w };

    fn write(&mut self, piece: &[u8]) -> Result<usize, WriteFailed>
        requires { 0 < length piece.now }
        ensures number { self.new.made ≡ call_number self.old.made }
        ensures fails { IsTrue (is_listed self.new.made self.old.failing) → IsTrue (is_err result) }
        ensures some { IfOk result (λ n. 0 < n) }
        ensures at_most { IfOk result (λ n. n ≤ self.old.most) }
        ensures within { IfOk result (λ n. n ≤ length piece.now) }
        ensures writes { IfOk result
            (λ n. self.new.written ≡ self.old.written ++ take n piece.now) }
        ensures err { OnErr result (Some self.new.written ≡ Some self.old.written) }
        ensures cause { OnErr result (Rises self.old.faults self.new.faults) }
        ensures faults { self.old.faults ≤ self.new.faults }
        ensures failing { self.new.failing ≡ self.old.failing }
        ensures most { self.new.most ≡ self.old.most }
    {
        if self.calls.next_fails() {
            return Err(WriteFailed);
        }
        let n = min(piece.len(), self.most as usize);
        match self.bytes.extend_from_slice(&piece[..n]) {
            Ok(()) => Ok(n),
            Err(_) => {
                self.calls.fail();
                Err(WriteFailed)
            }
        }
    }
}
