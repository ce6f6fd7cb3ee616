//! Works the cutting of plans out: prints what each shows, the texts of its branches, and each branch by its numbers.

mod answer;

pub(crate) use self::answer::answers;
