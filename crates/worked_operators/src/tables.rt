//! Works joins out on tables and probes: prints what each shows, and what comes of it.

mod asked;
mod indexes;
mod joining;
mod placing;
mod table;

pub(crate) use self::table::answers;
