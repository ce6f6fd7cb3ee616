//! Works sources out: prints the chunks that they give, and what the sinks around them end as.

mod chunks;
mod ordered;
mod reprojected;
mod sources;

use std::alloc::{AllocError, Global};

/// What each case shows, and its answer.
pub(crate) fn answers(alloc: Global) -> Result<String, AllocError> {
    let mut answers = String::new(alloc);
    sources::tell(alloc, &mut answers)?;
    ordered::tell(alloc, &mut answers)?;
    reprojected::tell(alloc, &mut answers)?;
    Ok(answers)
}
