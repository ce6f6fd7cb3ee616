//! Bytes in memory to read from: standard input and files.

ghost use Rattle.std.specs.Prelude.{◌≤◌, length};
ghost use Rattle.pipe_stream.specs.Memory.{source_bytes};

use pipe_schema::{Bytes, List};

/// A file's name and content.
#[derive(Debug, Drop)]
pub struct NamedBytes {
    pub name: Bytes,
    pub bytes: Bytes,
}

/// What can be read: standard input and files, and what of them is left.
#[derive(Debug, Drop)]
pub(crate) struct Shelf {
    pub(crate) standard: Bytes,
    pub(crate) files: List<NamedBytes>,
    pub(crate) source: Option<usize>,
    pub(crate) at: usize,
    ghost within: { at ≤ length (source_bytes standard files source) },
}
