//! Works plans out: prints what each shows, and what the plain program gives for it.

mod answer;

pub(crate) use self::answer::answers;
