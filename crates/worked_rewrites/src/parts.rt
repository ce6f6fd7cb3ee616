//! Works out how plans may be cut into parts: prints what each case shows, how each scan is cut, and how many rows each
//! part has to have whole, or what holds it up; and the lines of some.

mod answer;
mod lines;

pub(crate) use self::answer::answers;
pub(crate) use self::lines::lines;
