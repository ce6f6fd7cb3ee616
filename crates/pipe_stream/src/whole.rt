//! Whole texts: a job is read to its end, and a text is written whole.

ghost use Rattle.std.specs.Prelude.{◌≡◌, ◌≤◌, ◌<◌, ◌+◌, [], ◌++◌, length, take, drop, IfOk, IfErr, IsErrOf, OnOk, OnErr};
ghost use Rattle.pipe_stream.specs.Whole.{IsAll, IsLong, ReadAtMost, Reads, ReadsOn, WritesOn};
ghost use Rattle.pipe_stream.specs.Outside.{AtEnd, Counted, CountedAbove, ReadFails, WriteFails, Writes, WritesFront};

use crate::outside::{JobReader, ReadFailed, RowWriter, WriteFailed};
use std::alloc::Global;

/// The most bytes that a job may have.
pub const LIMIT: usize = 33_554_432;

/// How many bytes one read takes at most.
pub const PIECE: usize = 65_536;

/// Why a job wasn't read.
#[derive(Clone, Copy, Debug)]
pub enum WholeError {
    /// A read failed.
    Failed,
    /// There are more bytes than a job may have.
    TooLong,
    /// Want of memory.
    Memory,
}

/// A buffer of this many bytes.
fn buffer_of(alloc: Global, len: usize) -> Result<Vec<u8>, WholeError>
    ensures len { IfOk result (λ buffer. length buffer.items ≡ len) }
    ensures err { IfErr result (λ e. e ≡ WholeError.Memory) }
{
    match vec![in alloc; 0u8; len] {
        Ok(buffer) => Ok(buffer),
        Err(_) => Err(WholeError::Memory),
    }
}

/// Reads one more piece, and says how long it is.
#[tactic(auto, using(crate::proofs::WholeLemmas::reads_more))]
fn read_piece<R: JobReader>(
    input: &mut R,
    buffer: &mut [u8],
    text: &mut Vec<u8>,
) -> Result<usize, WholeError>
    requires { 0 < length buffer.old }
    ensures longer { IfOk result (λ n. length text.new.items ≡ length text.old.items + n) }
    ensures within { IfOk result (λ n. n ≤ length buffer.old) }
    ensures read { IfOk result
        (λ n. ReadsOn text.old.items text.new.items (R.seen input.old) (R.seen input.new)) }
    ensures end { IfOk result (λ n. n ≡ 0 → AtEnd (R.seen input.old) (R.seen input.new)) }
    ensures counts { IfOk result (λ n. Counted n (R.seen input.old) (R.seen input.new)) }
    ensures failed { IsErrOf result WholeError.Failed →
        ReadFails (R.seen input.old) (R.seen input.new) }
    ensures never_long { IsErrOf result WholeError.TooLong → ⊥ }
    ensures faults { (R.seen input.old).faults ≤ (R.seen input.new).faults }
{
    match input.read(buffer) {
        Ok(n) => match text.extend_from_slice(&buffer[..n]) {
            Ok(()) => Ok(n),
            Err(_) => Err(WholeError::Memory),
        },
        Err(ReadFailed) => Err(WholeError::Failed),
    }
}

/// Reads all that is left, in pieces as long as the buffer, unless there is too much.
#[tactic(auto, using(crate::proofs::WholeLemmas::rises_later, crate::proofs::WholeLemmas::counts_more, crate::proofs::WholeLemmas::long_text, crate::proofs::WholeLemmas::many_taken))]
fn read_pieces<R: JobReader>(
    input: &mut R,
    buffer: &mut [u8],
    text: &mut Vec<u8>,
) -> Result<(), WholeError>
    requires room { 0 < length buffer.old }
    requires empty { text.old.items ≡ [] }
    ensures read { OnOk result (Reads text.new.items (R.seen input.old) (R.seen input.new)) }
    ensures end { OnOk result (AtEnd (R.seen input.old) (R.seen input.new)) }
    ensures short { OnOk result (length text.new.items ≤ LIMIT) }
    ensures counts { OnOk result
        (Counted (length text.new.items) (R.seen input.old) (R.seen input.new)) }
    ensures long { IsErrOf result WholeError.TooLong → IsLong LIMIT (R.seen input.old) }
    ensures many { IsErrOf result WholeError.TooLong →
        CountedAbove LIMIT (R.seen input.old) (R.seen input.new) }
    ensures most { IsErrOf result WholeError.TooLong →
        ReadAtMost (LIMIT + length buffer.old) (R.seen input.old) (R.seen input.new) }
    ensures failed { IsErrOf result WholeError.Failed →
        ReadFails (R.seen input.old) (R.seen input.new) }
    ensures faults { (R.seen input.old).faults ≤ (R.seen input.new).faults }
{
    while text.len() <= LIMIT {
        if read_piece(input, buffer, text)? == 0 {
            return Ok(());
        }
    }
    Err(WholeError::TooLong)
}

/// Reads all that is left, unless there are more bytes than a job may have.
///
/// Where a reader tells its bytes, too long is said exactly where there are too many. Then no more than one read's bytes
/// are taken past the most that a job may have.
#[tactic(auto, using(crate::proofs::WholeLemmas::all_read))]
pub fn read_whole<R: JobReader>(alloc: Global, input: &mut R) -> Result<Vec<u8>, WholeError>
    // What was read.
    ensures whole { IfOk result (λ text. IsAll text.items (R.seen input.old)) }
    ensures end { OnOk result (AtEnd (R.seen input.old) (R.seen input.new)) }
    ensures short { IfOk result (λ text. length text.items ≤ LIMIT) }
    ensures counts { IfOk result
        (λ text. Counted (length text.items) (R.seen input.old) (R.seen input.new)) }

    // Why nothing was.
    ensures failed { IsErrOf result WholeError.Failed →
        ReadFails (R.seen input.old) (R.seen input.new) }
    ensures long { IsErrOf result WholeError.TooLong → IsLong LIMIT (R.seen input.old) }
    ensures many { IsErrOf result WholeError.TooLong →
        CountedAbove LIMIT (R.seen input.old) (R.seen input.new) }
    ensures most { IsErrOf result WholeError.TooLong →
        ReadAtMost (LIMIT + PIECE) (R.seen input.old) (R.seen input.new) }
    ensures faults { (R.seen input.old).faults ≤ (R.seen input.new).faults }
{
    let mut buffer = buffer_of(alloc, PIECE)?;
    let mut text = Vec::new(alloc);
    read_pieces(input, buffer.as_mut_slice(), &mut text)?;
    Ok(text)
}

/// The bytes from a place on.
fn rest_of(text: &[u8], at: usize) -> &[u8]
    requires { at ≤ length text.now }
    ensures { result.now ≡ drop at text.now }
{
    &text[at..]
}

/// Writes one more piece, and says up to where the text is written then.
#[tactic(auto, using(crate::proofs::WholeLemmas::writes_more))]
fn write_piece<W: RowWriter>(out: &mut W, text: &[u8], at: usize) -> Result<usize, WriteFailed>
    requires { at < length text.now }
    ensures forward { IfOk result (λ end. at < end) }
    ensures within { IfOk result (λ end. end ≤ length text.now) }
    ensures writes { IfOk result
        (λ end. WritesOn (take at text.now) (take end text.now) (W.seen out.old) (W.seen out.new)) }
    ensures err { OnErr result ((W.seen out.new).written ≡ (W.seen out.old).written) }
    ensures cause { OnErr result (WriteFails (W.seen out.old) (W.seen out.new)) }
    ensures faults { (W.seen out.old).faults ≤ (W.seen out.new).faults }
{
    let n = out.write(rest_of(text, at))?;
    Ok(at + n)
}

/// Writes all of a text, and a front of it where a write fails. It takes no memory.
#[tactic(auto, using(crate::proofs::WholeLemmas::front_written, crate::proofs::WholeLemmas::rises_later))]
pub fn write_whole<W: RowWriter>(out: &mut W, text: &[u8]) -> Result<(), WriteFailed>
    ensures ok { OnOk result (Writes text.now (W.seen out.old) (W.seen out.new)) }
    ensures err { OnErr result (WritesFront text.now (W.seen out.old) (W.seen out.new)) }
    ensures cause { OnErr result (WriteFails (W.seen out.old) (W.seen out.new)) }
    ensures faults { (W.seen out.old).faults ≤ (W.seen out.new).faults }
{
    let mut at = 0;
    while at < text.len() {
        at = write_piece(out, text, at)?;
    }
    Ok(())
}
