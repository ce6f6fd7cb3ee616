//! Works out where the conjuncts of filters go: prints what each case shows, and each conjunct where it goes.

mod answer;

pub(crate) use self::answer::answers;
