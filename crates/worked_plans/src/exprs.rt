//! Works expressions out: prints what each shows, and the column, the type or the copy that it gives.

mod copies;
mod nested;
mod table;
mod told;
mod types;

pub(crate) use self::table::answers;
