//! Jobs in JSON: their spelling, their reader, and the lines of rows.
//!
//! A value spells a job exactly where the reader gives that job.
#![tactic(auto)]

mod cell_texts;
mod cells;
mod columns;
mod exprs;
mod frames;
mod jobs;
mod join;
mod kinds;
mod laws;
mod lines;
mod lists;
mod members;
mod misread;
mod nodes;
mod ops;
mod row_lines;
mod spelled;
mod spelled_cell;
mod version;

pub use jobs::{Job, JobBack, JobError, back_of, job_of, read_job, read_value};
pub use laws::{lines_of_frame, one_job};
pub use lines::{head_line, push_head_line, push_rows, row_line};
pub use members::{Members, two_items};
pub use misread::Misread;
pub use row_lines::push_row_line;
pub use spelled::Spelled;
pub use version::{any_has_int128, fields_have_int128};
