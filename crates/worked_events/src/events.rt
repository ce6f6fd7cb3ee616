//! Works lists of events out: prints what each shows, and which event is the first that isn't allowed, or whether the
//! list is complete, and the rows of the root.

mod answer;
mod calls;
mod table;
mod written;

pub(crate) use self::table::answers;
