//! Works calls of pipelines out: prints for each plan the pipeline of each call, how many are left, and the plan's rows.

mod calls;
mod table;
mod told;

pub(crate) use self::table::answers;
