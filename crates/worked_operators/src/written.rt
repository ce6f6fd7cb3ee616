//! Cases as they are written: a line of what it shows, one of words, and one of its plan, which is a job.

/// What a case shows, where a line says it.
pub(crate) fn shown(line: &str) -> Option<&str> {
    line.strip_prefix("# ")
}

/// Whether a line is a job.
pub(crate) fn is_job(line: &str) -> bool {
    line.starts_with("{")
}

/// How a join is worked out: by these words, and under the one hash of all keys, or none where they are hashed by FNV-1a.
#[derive(Clone, Copy)]
pub(crate) struct Words<'a> {
    pub(crate) how: &'a str,
    pub(crate) hash: Option<u64>,
}

/// The words of a line.
pub(crate) fn words_of(line: &str) -> Words<'_> {
    match line.split_once(" hash ") {
        Some((how, number)) => Words {
            how,
            hash: number.parse::<u64>().ok(),
        },
        None => Words {
            how: line,
            hash: None,
        },
    }
}
