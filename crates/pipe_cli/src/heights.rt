//! Numbers of rows as a word: decimal numbers, a comma between each two.

ghost use Rattle.std.specs.Prelude.{◌≡◌, IfOk, IfSome, Some, None, is_some};
ghost use Rattle.std.specs.Option.{option_copied};
ghost use Rattle.pipe_cli.specs.Heights.{heights_in, heights_told};

use pipe_schema::Text;
use pipe_selftest::start_in;
use std::alloc::{AllocError, Global};

/// Whether a word is numbers of rows.
pub(crate) fn are_heights(word: &str) -> bool
    ensures { result ≡ is_some (heights_in word.now) }
{
    let mut rest = word;
    'pieces: while let Some((first, behind)) = rest.split_once(',') {
        if start_in(first).is_none() {
            return false;
        }
        rest = behind;
    }
    start_in(rest).is_some()
}

/// The numbers of rows that a word is.
fn heights_in(alloc: Global, word: &str) -> Result<Option<Vec<u64>>, AllocError>
    ensures some { IfOk result (λ told.
        IfSome told (λ heights. Some heights.items ≡ heights_in word.now)) }
    ensures none { IfOk result (λ told. told ≡ None → heights_in word.now ≡ None) }
{
    let mut heights = Vec::new(alloc);
    let mut rest = word;
    'pieces: while let Some((first, behind)) = rest.split_once(',') {
        let Some(height) = start_in(first) else {
            return Ok(None);
        };
        heights.push(height)?;
        rest = behind;
    }
    let Some(last) = start_in(rest) else {
        return Ok(None);
    };
    heights.push(last)?;
    Ok(Some(heights))
}

/// The numbers of rows that are told, where a word tells some.
pub(crate) fn heights_told(
    alloc: Global,
    word: Option<&Text>,
) -> Result<Option<Vec<u64>>, AllocError>
    ensures some { IfOk result (λ told.
        IfSome told (λ heights. Some heights.items ≡ heights_told (option_copied word.entry))) }
    ensures none { IfOk result (λ told.
        told ≡ None → heights_told (option_copied word.entry) ≡ None) }
{
    match word {
        Some(word) => heights_in(alloc, word.as_str()),
        None => Ok(None),
    }
}
