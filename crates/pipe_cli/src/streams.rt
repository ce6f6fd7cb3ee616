//! The input is read to its end, and a text is written whole.

ghost use Rattle.std.specs.Prelude.{◌≡◌, ◌≤◌, ◌∷◌, [], length, None, IfOk, IfErr, IsErrOf, OnOk, OnErr};
ghost use Rattle.std.specs.Option.{option_copied};
ghost use Rattle.pipe_stream.specs.Outside.{ReadFails, WriteFails, Writes, WritesFront};
ghost use Rattle.pipe_cli.specs.Refused.{OfReading};
ghost use Rattle.pipe_cli.specs.Sources.{HasAll, IsTakenInPart, IsWhole, Opened, Standard, WasRead, bytes_at, limit, standard_or};
ghost use Rattle.pipe_cli.specs.Status.{OneOf, status_of};

use crate::status::Refusal;
use pipe_schema::Text;
use pipe_stream::{JobReader, RowWriter, WholeError, read_whole, write_whole};
use std::alloc::Global;

/// All bytes that are left.
#[tactic(auto, using(crate::proofs::StreamLemmas::whole_read))]
pub(crate) fn bytes_left<R: JobReader>(alloc: Global, input: &mut R) -> Result<Vec<u8>, Refusal>
    ensures all { IfOk result (λ bytes. HasAll bytes.items (R.seen input.old).left) }
    ensures short { IfOk result (λ bytes. length bytes.items ≤ limit) }
    ensures read { OnOk result (IsWhole (R.seen input.old).left (R.seen input.new)) }
    ensures reading { IfErr result (λ r.
        OfReading r (R.seen input.old).left (R.seen input.old) (R.seen input.new)) }
    ensures early { IfErr result (λ r. OneOf (2 ∷ 3 ∷ 10 ∷ []) (status_of r)) }
    ensures most { IsErrOf result Refusal.TooLong →
        IsTakenInPart Standard (R.seen input.old) (R.seen input.new) }
{
    match read_whole(alloc, input) {
        Ok(bytes) => Ok(bytes),
        Err(WholeError::Failed) => Err(Refusal::ReadFault),
        Err(WholeError::TooLong) => Err(Refusal::TooLong),
        Err(WholeError::Memory) => Err(Refusal::Memory),
    }
}

/// Makes what stands under a name, where there is one, what is left to read.
fn open<R: JobReader>(name: Option<&Text>, input: &mut R) -> Result<(), Refusal>
    ensures opened { OnOk result
        (Opened (standard_or (option_copied name.entry)) (R.seen input.old) (R.seen input.new)) }
    ensures err { IfErr result (λ refusal. refusal ≡ Refusal.ReadFault) }
    ensures cause { OnErr result (ReadFails (R.seen input.old) (R.seen input.new)) }
    ensures taken { (R.seen input.old).taken ≤ (R.seen input.new).taken }
    ensures faults { (R.seen input.old).faults ≤ (R.seen input.new).faults }
    ensures nothing { option_copied name.entry ≡ None → R.seen input.new ≡ R.seen input.old }
{
    match name {
        Some(name) => match input.open_named(name.as_bytes()) {
            Ok(()) => Ok(()),
            Err(_) => Err(Refusal::ReadFault),
        },
        None => Ok(()),
    }
}

/// All bytes that stand under a name, or that are left where there is none.
#[tactic(auto, using(crate::proofs::StreamLemmas::all_named, crate::proofs::StreamLemmas::whole_named, crate::proofs::StreamLemmas::reading_named, crate::proofs::StreamLemmas::few_named))]
pub(crate) fn bytes_at<R: JobReader>(
    alloc: Global,
    name: Option<&Text>,
    input: &mut R,
) -> Result<Vec<u8>, Refusal>
    ensures all { IfOk result (λ bytes.
        HasAll bytes.items (bytes_at (standard_or (option_copied name.entry)) (R.seen input.old))) }
    ensures short { IfOk result (λ bytes. length bytes.items ≤ limit) }
    ensures read { OnOk result
        (WasRead (standard_or (option_copied name.entry)) (R.seen input.old) (R.seen input.new)) }
    ensures reading { IfErr result (λ r.
        OfReading r (bytes_at (standard_or (option_copied name.entry)) (R.seen input.old))
        (R.seen input.old) (R.seen input.new)) }
    ensures early { IfErr result (λ r. OneOf (2 ∷ 3 ∷ 10 ∷ []) (status_of r)) }
    ensures most { IsErrOf result Refusal.TooLong → IsTakenInPart
        (standard_or (option_copied name.entry)) (R.seen input.old) (R.seen input.new) }
{
    open(name, input)?;
    bytes_left(alloc, input)
}

/// Writes all of a text.
pub(crate) fn tell<W: RowWriter>(out: &mut W, text: &[u8]) -> Result<(), Refusal>
    ensures told { OnOk result (Writes text.now (W.seen out.old) (W.seen out.new)) }
    ensures front { OnErr result (WritesFront text.now (W.seen out.old) (W.seen out.new)) }
    ensures err { IfErr result (λ refusal. refusal ≡ Refusal.WriteFault) }
    ensures cause { OnErr result (WriteFails (W.seen out.old) (W.seen out.new)) }
    ensures faults { (W.seen out.old).faults ≤ (W.seen out.new).faults }
{
    match write_whole(out, text) {
        Ok(()) => Ok(()),
        Err(_) => Err(Refusal::WriteFault),
    }
}
