//! The known word that is nearest to one that isn't known.

use std::alloc::{AllocError, Global};
use strsim::osa_distance;

/// A text in lower case.
fn lowered(alloc: Global, text: &str) -> Result<String, AllocError> {
    let mut lower = String::from_str(alloc, text)?;
    lower.make_ascii_lowercase();
    Ok(lower)
}

/// A word is only compared where it has no more characters than this.
const MOST_COMPARED: usize = 200;

/// How many changes lead from one word to another, where letters may be of either case, and two beside each other that are
/// exchanged are one change.
pub fn distance(alloc: Global, a: &str, b: &str) -> Result<usize, AllocError> {
    if a.len() > MOST_COMPARED || b.len() > MOST_COMPARED {
        return Ok(MOST_COMPARED);
    }
    let a = lowered(alloc, a)?;
    let b = lowered(alloc, b)?;
    osa_distance(alloc, a.as_str(), b.as_str())
}

/// Whether so many changes are few for a word.
pub fn is_near(changes: usize, word: &str) -> bool {
    changes < word.len() && (changes <= 1 || changes <= word.len() / 3)
}

/// The first of the words to which the fewest changes lead, where these are few.
pub fn nearest<'w>(
    alloc: Global,
    word: &str,
    words: &[&'w str],
) -> Result<Option<&'w str>, AllocError> {
    let mut best = None;
    let mut least = usize::MAX;
    for known in words {
        let changes = distance(alloc, word, known)?;
        if changes < least && is_near(changes, known) {
            least = changes;
            best = Some(*known);
        }
    }
    Ok(best)
}
