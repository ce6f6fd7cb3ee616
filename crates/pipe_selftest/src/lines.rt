//! What a self-test writes.

ghost use Rattle.std.specs.Prelude.{◌≡◌, ◌++◌, IfOk, OnOk};
ghost use Rattle.pipe_selftest.specs.Lines.{line, lines};

use crate::running::JoinCounts;
use itoa::Buffer;
use std::alloc::{AllocError, Global};

/// Appends a word, a space, a number and the end of the line.
fn push_line(out: &mut Vec<u8>, word: &str, n: usize) -> Result<(), AllocError>
    ensures { OnOk result (out.new.items ≡ out.old.items ++ line word.now n) }
{
    out.extend_from_slice(word.as_bytes())?;
    out.push(b' ')?;
    let mut buffer = Buffer::new();
    out.extend_from_slice(buffer.format(n).as_bytes())?;
    out.push(b'\n')?;
    Ok(())
}

/// The three lines of the numbers of a self-test.
pub fn selftest_lines(alloc: Global, counts: JoinCounts) -> Result<Vec<u8>, AllocError>
    ensures { IfOk result (λ text. text.items ≡ lines counts.inner counts.left counts.full) }
{
    let mut text = Vec::new(alloc);
    push_line(&mut text, "inner", counts.inner)?;
    push_line(&mut text, "left", counts.left)?;
    push_line(&mut text, "full", counts.full)?;
    Ok(text)
}
