//! The outside and the top call.
//!
//! The one contract of this crate is that of `run_program`, which `run_words` carries for all words but `stream` and `why`: where it answers 0, the input was read to its end, and
//! what was written is the answer to it; every other status has its cause as a clause. What a command adds to that
//! is one record, in a file of its own.
#![tactic(auto)]

mod answer;
mod commands;
mod fault_lines;
mod heights;
mod jobs;
mod laws;
mod program;
mod recons;
mod refused;
mod replays;
mod status;
mod stream;
mod streams;
mod why;
mod words;

pub use commands::{Command, command_of};
pub use fault_lines::fault_line;
pub use laws::commands_are_lawful;
pub use pipe_job::{Job, JobError, head_line, job_of, read_job, row_line};
pub use pipe_stream::{
    JobReader, LIMIT, MemReader, MemWriter, NamedBytes, ReadFailed, RowWriter, StreamWriter,
    SureReader, SureWriter, SystemReader, WholeError, WriteFailed, read_whole, write_whole,
};
pub use program::run_program;
pub use status::Refusal;
pub use words::run_words;
