//! The line of a value.

ghost use Rattle.std.specs.Prelude.{◌≡◌, ◌≤◌, Some, false, IfOk, IsUtf8};
ghost use Rattle.serde_json.specs.Data.{depth};
ghost use Rattle.serde_json.specs.Read.{max_depth, read};
ghost use Rattle.serde_json.specs.Written.{has_float};
ghost use Rattle.pipe_job.specs.Line.{line_of};
ghost use Rattle.pipe_value.specs.View.{view};
ghost use Rattle.pipe_spell.specs.Printed.{IsPrinted};

use crate::writing::write;
use json::Writer;
use pipe_value::Value;
use std::alloc::{AllocError, Global};

/// The text of a value.
fn printed(alloc: Global, value: &Value) -> Result<Vec<u8>, AllocError>
    ensures printed { IfOk result (λ text. IsPrinted (view value.now) text.items) }
{
    let mut out = Writer::new(Vec::with_capacity(alloc, 128)?);
    write(value, &mut out)?;
    Ok(out.into_inner())
}

/// The line of a value: its compact text and a newline. Of a value without a float it is the text of the definition; it
/// reads as the value, where that nests no deeper than the reader goes.
#[tactic(auto, using(crate::proofs::Lines::line_is, crate::proofs::Lines::line_utf8, crate::proofs::Lines::line_reads_back))]
pub fn line_of_value(alloc: Global, value: &Value) -> Result<Vec<u8>, AllocError>
    ensures text { IfOk result (λ line. has_float (view value.now) ≡ false
        → line.items ≡ line_of (view value.now)) }
    ensures utf8 { IfOk result (λ line. IsUtf8 line.items) }
    ensures reads_back { IfOk result (λ line. depth (view value.now) ≤ max_depth
        → read line.items ≡ Some (view value.now)) }
{
    let mut line = printed(alloc, value)?;
    line.push(b'\n')?;
    Ok(line)
}
