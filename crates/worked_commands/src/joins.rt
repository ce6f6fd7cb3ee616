//! 500 joins, one on the other, under 500 conjuncts, each of which goes onto its own scan.

use crate::made::SCAN;
use std::alloc::{AllocError, Global};

/// How many joins stand in the chain, and how many conjuncts on the last.
const JOINS: u32 = 500;

/// How many filters stand on the last join.
const FILTERS: u32 = 10;

/// How many conjuncts each filter has: arrays and objects may nest 127 deep.
const CONJUNCTS: u32 = 50;

/// The frame of a number: a key, and a column of that number.
fn frame(alloc: Global, n: u32) -> Result<String, AllocError> {
    let more = n.saturating_add(1);
    format!(in alloc;
        "{{\"columns\":[{{\"name\":\"k\",\"type\":\"Int64\",\"values\":[1,2]}},{{\"name\":\"x{n}\",\"type\":\"Int64\",\"values\":[{n},{more}]}}]}}"
    )
}

/// The frames, one behind the other.
fn frames(alloc: Global) -> Result<String, AllocError> {
    let mut text = frame(alloc, 0)?;
    for n in 1..=JOINS {
        text.push_str(",")?;
        text.push_str(frame(alloc, n)?.as_str())?;
    }
    Ok(text)
}

/// A scan of the frame of a number, and its join to what stands before it, which has these members.
fn joined(alloc: Global, members: &str, n: u32) -> Result<String, AllocError> {
    let right = n.saturating_mul(2).saturating_sub(1);
    let left = right.saturating_sub(1);
    format!(in alloc;
        ",{{\"node\":\"DataFrameScan\",\"frame\":{n},\"columns\":null}},{{\"node\":\"Join\",\"left\":{left},\"right\":{right},{members}}}"
    )
}

/// A scan, and the joins on it.
fn chain(alloc: Global, members: &str) -> Result<String, AllocError> {
    let mut text = String::from_str(alloc, SCAN)?;
    for n in 1..=JOINS {
        text.push_str(joined(alloc, members, n)?.as_str())?;
    }
    Ok(text)
}

/// Whether the column of a number is above that number.
fn conjunct(alloc: Global, n: u32) -> Result<String, AllocError> {
    format!(in alloc;
        "{{\"gt\":[{{\"col\":\"x{n}\"}},{{\"lit\":{{\"type\":\"Int64\",\"value\":{n}}}}}]}}"
    )
}

/// The conjuncts of a filter, joined by `and`.
fn predicate(alloc: Global, first: u32) -> Result<String, AllocError> {
    let mut text = conjunct(alloc, first)?;
    for n in first.saturating_add(1)..first.saturating_add(CONJUNCTS) {
        let next = conjunct(alloc, n)?;
        text = format!(in alloc; "{{\"and\":[{text},{next}]}}")?;
    }
    Ok(text)
}

/// The filters on the last join.
fn filters(alloc: Global) -> Result<String, AllocError> {
    let mut text = String::new(alloc);
    for filter in 0..FILTERS {
        let input = JOINS.saturating_mul(2).saturating_add(filter);
        let first = filter.saturating_mul(CONJUNCTS).saturating_add(1);
        let predicate = predicate(alloc, first)?;
        let node = format!(in alloc;
            ",{{\"node\":\"Filter\",\"input\":{input},\"predicate\":{predicate}}}"
        )?;
        text.push_str(node.as_str())?;
    }
    Ok(text)
}

/// The job: joins that have these members, filters on them, and two columns that are chosen of them.
pub(crate) fn joins(alloc: Global, members: &str) -> Result<String, AllocError> {
    let frames = frames(alloc)?;
    let chain = chain(alloc, members)?;
    let filters = filters(alloc)?;
    let input = JOINS.saturating_mul(2).saturating_add(FILTERS);
    let root = input.saturating_add(1);
    format!(in alloc;
        "{{\"version\":1,\"workers\":1,\"chunk_rows\":2,\"row_limit\":100,\"frames\":[{frames}],\"root\":{root},\"plan\":[{chain}{filters},{{\"node\":\"SimpleProjection\",\"input\":{input},\"columns\":[\"k\",\"x{JOINS}\"]}}]}}"
    )
}
