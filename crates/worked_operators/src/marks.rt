//! Works joins out that keep rows of their built side: prints what each shows, and what comes of it.

mod built;
mod full;
mod marking;
mod table;

pub(crate) use self::table::answers;
