//! What the program reads and writes: a reader of jobs and a writer of rows, as traits.

ghost use Rattle.std.specs.Prelude.{◌≡◌, ◌≤◌, ◌<◌, take, length, IfOk, OnOk, OnErr};
ghost use Rattle.pipe_stream.specs.Outside.{Counted, InputSeen, Opens, OutputSeen, ReadFails, Takes, WriteFails, Writes};

/// A read that failed.
#[derive(Clone, Copy, Debug)]
pub struct ReadFailed;

/// A write that failed.
#[derive(Clone, Copy, Debug)]
pub struct WriteFailed;

/// What a job is read from: standard input, or after `open_named` what stands under a name.
pub trait JobReader {
    /// What is known of it. No call changes the bytes that stand under a name.
    ghost seen: { Self → InputSeen };

    /// Makes the bytes under a name what is left to read.
    fn open_named(&mut self, name: &[u8]) -> Result<(), ReadFailed>
        ensures ok { OnOk result (Opens name.now (seen self.old) (seen self.new)) }
        ensures err { OnErr result ((seen self.new).left ≡ (seen self.old).left) }
        ensures named { (seen self.new).named ≡ (seen self.old).named }
        ensures taken { (seen self.old).taken ≤ (seen self.new).taken }
        ensures cause { OnErr result (ReadFails (seen self.old) (seen self.new)) }
        ensures faults { (seen self.old).faults ≤ (seen self.new).faults };

    /// Takes bytes from the front of what is left into a buffer, and says how many: none exactly at the end.
    fn read(&mut self, buffer: &mut [u8]) -> Result<usize, ReadFailed>
        requires { 0 < length buffer.old }
        ensures within { IfOk result (λ n. n ≤ length buffer.new) }
        ensures takes { IfOk result (λ n. Takes n buffer.new (seen self.old) (seen self.new)) }
        ensures counts { IfOk result (λ n. Counted n (seen self.old) (seen self.new)) }
        ensures err { OnErr result ((seen self.new).left ≡ (seen self.old).left) }
        ensures named { (seen self.new).named ≡ (seen self.old).named }
        ensures taken { (seen self.old).taken ≤ (seen self.new).taken }
        ensures cause { OnErr result (ReadFails (seen self.old) (seen self.new)) }
        ensures faults { (seen self.old).faults ≤ (seen self.new).faults };
}

/// What rows are written to.
pub trait RowWriter {
    /// What is known of it.
    ghost seen: { Self → OutputSeen };

    /// Writes bytes from the front of a piece, at least one, and says how many.
    fn write(&mut self, piece: &[u8]) -> Result<usize, WriteFailed>
        requires { 0 < length piece.now }
        ensures some { IfOk result (λ n. 0 < n) }
        ensures within { IfOk result (λ n. n ≤ length piece.now) }
        ensures writes { IfOk result
            (λ n. Writes (take n piece.now) (seen self.old) (seen self.new)) }
        ensures err { OnErr result ((seen self.new).written ≡ (seen self.old).written) }
        ensures cause { OnErr result (WriteFails (seen self.old) (seen self.new)) }
        ensures faults { (seen self.old).faults ≤ (seen self.new).faults };
}
