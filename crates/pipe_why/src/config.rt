//! What is told of the numbers of a job.

use pipe_plan::PipeConfig;
use std::alloc::AllocError;
use std::fmt::Write;

/// A number that isn't within its range.
#[derive(Clone, Copy)]
pub(crate) struct BadNumber {
    name: &'static str,
    least: u32,
    most: u32,
    found: u32,
}

impl BadNumber {
    /// The first of the numbers that isn't within its range, if one isn't.
    pub(crate) fn of(config: &PipeConfig) -> Option<BadNumber> {
        if config.workers == 0 || 256 < config.workers {
            return Some(BadNumber {
                name: "workers",
                least: 1,
                most: 256,
                found: config.workers,
            });
        }
        if config.chunk_rows == 0 {
            return Some(BadNumber {
                name: "chunk_rows",
                least: 1,
                most: u32::MAX,
                found: config.chunk_rows,
            });
        }
        if config.row_limit == 0 || config.row_limit == u32::MAX {
            return Some(BadNumber {
                name: "row_limit",
                least: 1,
                most: u32::MAX - 1,
                found: config.row_limit,
            });
        }
        None
    }

    /// Appends what is told of it.
    pub(crate) fn push(&self, out: &mut String) -> Result<(), AllocError> {
        write!(
            out,
            ": {} isn't within its range\nexpected: {}: a whole number from {} to {}\nfound: {}\n",
            self.name, self.name, self.least, self.most, self.found
        )
    }
}

/// Appends the first of the numbers that isn't within its range, if one isn't.
pub fn push_config(out: &mut String, config: &PipeConfig) -> Result<bool, AllocError> {
    match BadNumber::of(config) {
        Some(number) => {
            out.push_str("BadConfig")?;
            number.push(out)?;
            Ok(true)
        }
        None => Ok(false),
    }
}
