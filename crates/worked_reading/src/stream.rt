//! Works out what two workers and a writer make of a frame: prints what each case shows, and how it ends.

mod failing;
mod frames;
mod meeting;
mod orders;
mod refused;
mod renders;
mod table;

pub(crate) use self::table::answers;
