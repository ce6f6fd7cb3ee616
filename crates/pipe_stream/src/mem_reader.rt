//! A reader in memory, some calls of which fail as they are told.

ghost use Rattle.std.specs.Prelude.{◌≡◌, ◌≤◌, ◌<◌, ◌||◌, Some, length, IfOk, IfSome, OnOk, OnErr, is_err, is_none};
ghost use Rattle.pipe_schema.specs.Counts.{Counts, Rises};
ghost use Rattle.pipe_stream.specs.Outside.{Took};
ghost use Rattle.pipe_stream.specs.Memory.{bytes_named, call_number, is_listed, scripted_input};

use crate::calls::Calls;
use crate::outside::{JobReader, ReadFailed};
use crate::shelf::{NamedBytes, Shelf};
use pipe_schema::{Bytes, List};
use std::marker::Model;

/// A reader over bytes in memory, some calls of which fail.
#[derive(Debug, Drop)]
pub struct MemReader {
    shelf: Shelf,
    most: u32,
    calls: Calls,
    taken: u64,
}

impl Model for MemReader {
    ghost use Rattle.std.specs.Prelude.{◌<◌};
    ghost use Rattle.pipe_stream.specs.Memory.{ScriptedReader};
    ghost use Rattle.pipe_stream.specs.Shelves.{left_of};

    ghost Value = { ScriptedReader };

    ghost view = { λ r. record { left = left_of r.shelf; files = r.shelf.files; most = r.most; failing = r.calls.failing; made = r.calls.made; taken = r.taken; faults = r.calls.failed } };

    ghost invariant = { λ r. 0 < r.most };
}

impl MemReader {
    /// A reader of standard input or one of these files, which takes at most `most` bytes a read.
    ///
    /// Its calls are counted from 1, and those whose numbers stand in `failing` fail. So does `open_named` of a
    /// name that no file has. Where two files have one name, the first counts. A call that fails takes nothing.
    pub fn new(standard: Bytes, files: List<NamedBytes>, most: u32, failing: List<u64>) -> MemReader
        requires { 0 < most }
        ensures { result ≡ record {
          left = standard;
          files = files;
          most = most;
          failing = failing;
          made = 0;
          taken = 0;
          faults = 0;
        } }
    {
        MemReader {
            shelf: Shelf::new(standard, files),
            most,
            calls: Calls::new(failing),
            taken: 0,
        }
    }
}

impl JobReader for MemReader {
    ghost seen = { λ r. scripted_input r };

    fn open_named(&mut self, name: &[u8]) -> Result<(), ReadFailed>
        ensures number { self.new.made ≡ call_number self.old.made }
        ensures fails { is_err result ≡
            (is_listed self.new.made self.old.failing
            || is_none (bytes_named self.old.files name.now)) }
        ensures ok { OnOk result
            (IfSome (bytes_named self.old.files name.now)
            (λ bytes. Some self.new.left ≡ Some bytes)) }
        ensures err { OnErr result (Some self.new.left ≡ Some self.old.left) }
        ensures untaken { self.new.taken ≡ self.old.taken }
        ensures cause { OnErr result (Rises self.old.faults self.new.faults) }
        ensures faults { self.old.faults ≤ self.new.faults }
        ensures files { self.new.files ≡ self.old.files }
        ensures failing { self.new.failing ≡ self.old.failing }
        ensures most { self.new.most ≡ self.old.most }
    {
        if self.calls.next_fails() {
            return Err(ReadFailed);
        }
        if !self.shelf.open(name) {
            self.calls.fail();
            return Err(ReadFailed);
        }
        Ok(())
    }

    fn read(&mut self, buffer: &mut [u8]) -> Result<usize, ReadFailed>
        requires { 0 < length buffer.old }
        ensures number { self.new.made ≡ call_number self.old.made }
        ensures fails { is_err result ≡ is_listed self.new.made self.old.failing }
        ensures at_most { IfOk result (λ n. n ≤ self.old.most) }
        ensures within { IfOk result (λ n. n ≤ length buffer.new) }
        ensures takes { IfOk result (λ n. Took n buffer.new self.old.left (Some self.new.left)) }
        ensures counts { IfOk result (λ n. Counts n self.old.taken self.new.taken) }
        ensures err { OnErr result (Some self.new.left ≡ Some self.old.left) }
        ensures untaken { OnErr result (self.new.taken ≡ self.old.taken) }
        ensures taken { self.old.taken ≤ self.new.taken }
        ensures cause { OnErr result (Rises self.old.faults self.new.faults) }
        ensures faults { self.old.faults ≤ self.new.faults }
        ensures files { self.new.files ≡ self.old.files }
        ensures failing { self.new.failing ≡ self.old.failing }
        ensures most { self.new.most ≡ self.old.most }
    {
        if self.calls.next_fails() {
            return Err(ReadFailed);
        }
        let n = self.shelf.take(buffer, self.most as usize);
        self.taken = self.taken.saturating_add(n as u64);
        Ok(n)
    }
}
