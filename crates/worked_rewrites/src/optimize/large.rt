//! Large plans: how many nodes are rewritten, and a long chain of joins under as many filters.

use crate::optimize::answer::{push_refusal, rewritten};
use pipe_column::Series;
use pipe_expr::{Expr, JoinCoalesce, JoinType};
use pipe_frame::DataFrame;
use pipe_plan::{Arena, IR, JoinOptions, RowsHint};
use pipe_schema::{AnyValue, DataType, FrameError, List, Text};
use std::alloc::{AllocError, Global};

/// How many joins stand in the chain.
const JOINS: u32 = 500;

/// The name of the column of the chain's n-th frame.
fn column_name(alloc: Global, n: u32) -> Result<Text, AllocError> {
    Ok(Text::from_string(format!(in alloc; "x{n}")?))
}

/// A key without rows, and the column of a number.
fn columns(alloc: Global, n: u32) -> Result<Vec<Series>, AllocError> {
    let mut columns = List::new(alloc);
    let key = Text::from_str(alloc, "k")?;
    columns.push(Series::new(alloc, key, DataType::Int64))?;
    columns.push(Series::new(alloc, column_name(alloc, n)?, DataType::Int64))?;
    Ok(columns.into_vec())
}

/// Adds a frame without rows.
fn push_frame(alloc: Global, frames: &mut List<DataFrame>, n: u32) -> Result<(), FrameError> {
    let columns = columns(alloc, n)?;
    frames.push(DataFrame::new(alloc, columns)?)?;
    Ok(())
}

/// A filter on a node: whether a column is above a number.
fn filter(alloc: Global, input: u32, n: u32) -> Result<IR, AllocError> {
    let column = Box::new(alloc, Expr::Col(column_name(alloc, n)?))?;
    let value = Box::new(
        alloc,
        Expr::Lit {
            dtype: DataType::Int64,
            value: AnyValue::Int64(1),
        },
    )?;
    Ok(IR::Filter {
        input,
        predicate: Expr::Gt(column, value),
    })
}

/// The columns by which all frames are joined.
fn keys(alloc: Global) -> Result<List<Expr>, AllocError> {
    let mut keys = List::new(alloc);
    keys.push(Expr::Col(Text::from_str(alloc, "k")?))?;
    Ok(keys)
}

/// No hint.
fn no_hint() -> RowsHint {
    RowsHint {
        known: None,
        estimate: 0,
    }
}

/// An inner join by the key.
fn join(alloc: Global, left: u32, right: u32) -> Result<IR, AllocError> {
    let left_on = keys(alloc)?;
    let right_on = keys(alloc)?;
    Ok(IR::Join {
        left,
        right,
        left_on,
        right_on,
        options: JoinOptions {
            how: JoinType::Inner,
            join_nulls: false,
            coalesce: JoinCoalesce::JoinSpecific,
            suffix: Text::from_str(alloc, "_right")?,
            rows_left: no_hint(),
            rows_right: no_hint(),
        },
    })
}

/// Scans, each joined to what stands before it, and as many filters on the last join.
fn chain(alloc: Global) -> Result<Arena, FrameError> {
    let mut frames = List::new(alloc);
    let mut nodes = List::new(alloc);
    push_frame(alloc, &mut frames, 0)?;
    nodes.push(IR::DataFrameScan {
        frame: 0,
        columns: None,
    })?;
    let mut last = 0;
    for n in 1..=JOINS {
        push_frame(alloc, &mut frames, n)?;
        nodes.push(IR::DataFrameScan {
            frame: n,
            columns: None,
        })?;
        nodes.push(join(alloc, last, 2 * n - 1)?)?;
        last = 2 * n;
    }
    for n in 1..=JOINS {
        nodes.push(filter(alloc, last, n)?)?;
        last = 2 * JOINS + n;
    }
    Ok(Arena { nodes, frames })
}

/// How many filters stand on scans.
fn low_filters(nodes: &[IR]) -> usize {
    let mut count = 0;
    for node in nodes {
        if let IR::Filter { input, .. } = node {
            if let Some(IR::DataFrameScan { .. }) = nodes.get(*input as usize) {
                count = usize::min(count, nodes.len()) + 1;
            }
        }
    }
    count
}

/// Appends how many nodes the rewriting of an arena's last node has, and how many filters stand on scans there.
fn push_counts(alloc: Global, answers: &mut String, arena: &Arena) -> Result<(), AllocError> {
    let root = u32::try_from(arena.nodes.len().saturating_sub(1)).unwrap_or(u32::MAX);
    match rewritten(alloc, arena, root) {
        Ok(made) => {
            let nodes = made.nodes.len();
            let filters = low_filters(made.nodes.as_slice());
            let text = format!(in alloc; "{nodes} nodes, {filters} filters on scans\n")?;
            answers.push_str(text.as_str())
        }
        Err(error) => push_refusal(answers, &error),
    }
}

/// A scan and filters on it, so many nodes in all.
fn filters(alloc: Global, count: u32) -> Result<Arena, FrameError> {
    let mut frames = List::new(alloc);
    let mut nodes = List::new(alloc);
    push_frame(alloc, &mut frames, 0)?;
    nodes.push(IR::DataFrameScan {
        frame: 0,
        columns: None,
    })?;
    for n in 1..count {
        nodes.push(filter(alloc, n - 1, 0)?)?;
    }
    Ok(Arena { nodes, frames })
}

/// Appends the counts of a plan, where its frames could be made.
fn push_made(
    alloc: Global,
    answers: &mut String,
    shows: &str,
    made: Result<Arena, FrameError>,
) -> Result<(), AllocError> {
    answers.push_str("# ")?;
    answers.push_str(shows)?;
    answers.push_str("\n")?;
    match made {
        Ok(arena) => push_counts(alloc, answers, &arena),
        Err(FrameError::Memory) => Err(AllocError),
        Err(_) => answers.push_str("no frames\n"),
    }
}

/// Appends the cases.
pub(crate) fn tell_all(alloc: Global, answers: &mut String) -> Result<(), AllocError> {
    let joins = chain(alloc);
    push_made(alloc, answers, "500 joins under 500 filters", joins)?;
    let most = filters(alloc, 2048);
    push_made(alloc, answers, "2,048 nodes", most)?;
    let more = filters(alloc, 2049);
    push_made(alloc, answers, "2,049 nodes", more)
}
