//! What the program reads and writes: readers of jobs and writers of rows, in memory and over real streams; and frames
//! written block by block: two workers render the blocks, and the caller writes them as they come.
//!
//! The workers and the caller share one short queue, so that only a few blocks are in memory at once.
#![tactic(auto)]

mod adapters;
mod blocks;
mod caller;
mod calls;
mod desk;
mod hands;
mod laws;
mod mem_reader;
mod mem_writer;
mod message;
mod outcome;
mod outside;
mod progress;
mod render;
mod row_lines;
mod scope;
mod shelf;
mod shelf_reading;
mod sink;
mod stream;
mod sure_reader;
mod sure_writer;
mod whole;
mod worker;

pub use adapters::{StreamWriter, SystemReader};
pub use laws::{blocks_have_the_lines, blocks_hold_the_rows};
pub use mem_reader::MemReader;
pub use mem_writer::MemWriter;
pub use outcome::{Report, StreamError};
pub use outside::{JobReader, ReadFailed, RowWriter, WriteFailed};
pub use render::Render;
pub use row_lines::RowLines;
pub use shelf::NamedBytes;
pub use sink::{BlockSink, PutFailed};
pub use stream::stream_frame;
pub use sure_reader::SureReader;
pub use sure_writer::SureWriter;
pub use whole::{LIMIT, PIECE, WholeError, read_whole, write_whole};
