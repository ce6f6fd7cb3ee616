//! Chunks: a frame with a number that says where it stands among others.

ghost use Rattle.std.specs.Prelude.{◌≡◌, [], IsTrue, ◌↔◌};

use crate::data_frame::DataFrame;
use pipe_schema::TryClone;
use std::alloc::AllocError;

/// A frame with its place among the chunks of a run.
#[derive(Debug)]
pub struct DataChunk {
    pub chunk_index: u64,
    pub frame: DataFrame,
}

impl Drop for DataChunk {
    fn drop(self) {
        let DataChunk {
            chunk_index: _,
            frame,
        } = self;
        drop(frame);
    }
}

impl DataChunk {
    /// A frame with its place.
    pub fn new(chunk_index: u64, frame: DataFrame) -> DataChunk
        ensures { result ≡ record { chunk_index = chunk_index; frame = frame } }
    {
        DataChunk { chunk_index, frame }
    }

    /// Another frame at the same place.
    pub fn with_data(&self, frame: DataFrame) -> DataChunk
        ensures { result ≡ record { chunk_index = self.now.chunk_index; frame = frame } }
    {
        DataChunk {
            chunk_index: self.chunk_index,
            frame,
        }
    }

    /// The frame.
    pub fn into_frame(self) -> DataFrame
        ensures { result ≡ self.frame }
    {
        let DataChunk {
            chunk_index: _,
            frame,
        } = self;
        frame
    }

    /// Whether the chunk has no row.
    pub fn is_empty(&self) -> bool
        ensures { IsTrue result ↔ (self.now.frame.rows ≡ []) }
    {
        self.frame.height() == 0
    }
}

impl TryClone for DataChunk {
    fn try_clone(&self) -> Result<DataChunk, AllocError> {
        Ok(DataChunk {
            chunk_index: self.chunk_index,
            frame: self.frame.try_clone()?,
        })
    }
}
