//! Texts that are made of the text of a case: such as are too large to be written out.

use crate::case::Case;
use crate::joins::joins;
use std::alloc::{AllocError, Global};

/// A scan of the first frame.
pub(crate) const SCAN: &str = r#"{"node":"DataFrameScan","frame":0,"columns":null}"#;

/// So many spaces.
fn spaces(alloc: Global, count: u32) -> Result<String, AllocError> {
    let mut text = String::new(alloc);
    for _ in 0..count {
        text.push_str(" ")?;
    }
    Ok(text)
}

/// A thousand numbers 7 in place of each column of one.
fn sevens(alloc: Global, text: &str) -> Result<String, AllocError> {
    let mut made = String::new(alloc);
    for (place, piece) in text.split("[7]").enumerate() {
        if place > 0 {
            push_sevens(&mut made)?;
        }
        made.push_str(piece)?;
    }
    Ok(made)
}

/// Appends a column of a thousand numbers 7.
fn push_sevens(made: &mut String) -> Result<(), AllocError> {
    made.push_str("[7")?;
    for _ in 1..1_000 {
        made.push_str(",7")?;
    }
    made.push_str("]")
}

/// So many scans, a comma behind each.
fn push_scans(made: &mut String, count: u32) -> Result<(), AllocError> {
    for _ in 0..count {
        made.push_str(SCAN)?;
        made.push_str(",")?;
    }
    Ok(())
}

/// The job of these members, the nodes before the root, which is so far from the first, and the root.
fn job_of(
    alloc: Global,
    members: &str,
    nodes: &str,
    root: u32,
    last: &str,
) -> Result<String, AllocError> {
    format!(in alloc; "{members}\"root\":{root},\"plan\":[{nodes}{last}]}}")
}

/// The job of so many scans, the first of which is the root.
fn scans(alloc: Global, members: &str, count: u32) -> Result<String, AllocError> {
    let mut nodes = String::new(alloc);
    push_scans(&mut nodes, count.saturating_sub(1))?;
    job_of(alloc, members, nodes.as_str(), 0, SCAN)
}

/// The numbers below one, a comma between each two.
fn numbers_below(alloc: Global, count: u32) -> Result<String, AllocError> {
    let mut numbers = String::new(alloc);
    for number in 0..count {
        let comma = if number == 0 { "" } else { "," };
        numbers.push_str(format!(in alloc; "{comma}{number}")?.as_str())?;
    }
    Ok(numbers)
}

/// The job of a union of so many scans.
fn union(alloc: Global, members: &str, count: u32) -> Result<String, AllocError> {
    let mut nodes = String::new(alloc);
    push_scans(&mut nodes, count)?;
    let inputs = numbers_below(alloc, count)?;
    let last = format!(in alloc; "{{\"node\":\"Union\",\"inputs\":[{inputs}]}}")?;
    job_of(alloc, members, nodes.as_str(), count, last.as_str())
}

/// The job of a scan and so many choices of its columns, one on the other.
fn choices(alloc: Global, members: &str, count: u32) -> Result<String, AllocError> {
    let mut nodes = String::from_str(alloc, SCAN)?;
    for input in 0..count {
        let node = format!(in alloc;
            ",{{\"node\":\"SimpleProjection\",\"input\":{input},\"columns\":[\"k\"]}}"
        )?;
        nodes.push_str(node.as_str())?;
    }
    job_of(alloc, members, nodes.as_str(), count, "")
}

/// What a case reads: its text, or what is made of it.
pub(crate) fn text_of(alloc: Global, case: Case<'_>) -> Result<String, AllocError> {
    let (kind, _) = case.made.split_once(' ').unwrap_or((case.made, ""));
    match kind {
        "spaces" => spaces(alloc, case.size()),
        "sevens" => sevens(alloc, case.text),
        "scans" => scans(alloc, case.text, case.size()),
        "union" => union(alloc, case.text, case.size()),
        "choices" => choices(alloc, case.text, case.size()),
        "joins" => joins(alloc, case.text),
        _ => String::from_str(alloc, case.text),
    }
}
