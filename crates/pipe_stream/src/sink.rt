//! What the texts of blocks are put to.

ghost use Rattle.std.specs.Prelude.{◌≤◌, OnOk, OnErr};
ghost use Rattle.pipe_stream.specs.Outside.{OutputSeen, WriteFails, Writes, WritesFront};

use crate::outside::RowWriter;
use crate::whole::write_whole;

/// A text that wasn't put whole.
#[derive(Clone, Copy, Debug)]
pub struct PutFailed;

/// What takes texts, one after another.
pub trait BlockSink {
    /// What is known of it: what was put, where it tells that, and how many calls failed.
    ghost seen: { Self → OutputSeen };

    /// Puts a text, and a front of it where it fails.
    fn put(&mut self, text: &[u8]) -> Result<(), PutFailed>
        ensures ok { OnOk result (Writes text.now (seen self.old) (seen self.new)) }
        ensures err { OnErr result (WritesFront text.now (seen self.old) (seen self.new)) }
        ensures cause { OnErr result (WriteFails (seen self.old) (seen self.new)) }
        ensures faults { (seen self.old).faults ≤ (seen self.new).faults };
}

/// A writer takes texts: it has its bytes and its count of faults.
impl<W: RowWriter> BlockSink for W {
    ghost seen = { λ w. W.seen w };

    fn put(&mut self, text: &[u8]) -> Result<(), PutFailed>
        ensures ok { OnOk result (Writes text.now (W.seen self.old) (W.seen self.new)) }
        ensures err { OnErr result (WritesFront text.now (W.seen self.old) (W.seen self.new)) }
        ensures cause { OnErr result (WriteFails (W.seen self.old) (W.seen self.new)) }
        ensures faults { (W.seen self.old).faults ≤ (W.seen self.new).faults }
    {
        match write_whole(self, text) {
            Ok(()) => Ok(()),
            Err(_) => Err(PutFailed),
        }
    }
}
