//! Works spelling out: prints what each case shows, and the line that is spelled of the job that is read.

mod cases;
mod table;

pub(crate) use self::table::answers;
