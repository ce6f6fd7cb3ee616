//! The parts of a job that was read.

use pipe_expr::Expr;
use pipe_job::{Job, read_job};
use pipe_plan::{IR, JoinOptions, PipeConfig, RowsHint};
use std::alloc::{AllocError, Global};

/// An inner join of two frames, sorted by its key.
const JOINED: &str = r#"{"version":1,"workers":3,"chunk_rows":2,"row_limit":1000000,
"frames":[
{"columns":[{"name":"k","type":"Int64","values":[1,1,2]},
{"name":"x","type":"String","values":["p","q","r"]}]},
{"columns":[{"name":"k","type":"Int64","values":[1,1,3]},
{"name":"y","type":"String","values":["s","t","u"]}]}],
"plan":[
{"node":"DataFrameScan","frame":0,"columns":null},
{"node":"DataFrameScan","frame":1,"columns":null},
{"node":"Join","left":0,"right":1,"left_on":[{"col":"k"}],"right_on":[{"col":"k"}],
"how":"inner","join_nulls":false,"coalesce":"JoinSpecific","suffix":"_right",
"rows_left":[null,0],"rows_right":[7,5]},
{"node":"Sort","input":2,"by":["k"],"descending":[false],"nulls_last":[false],"slice":null}],
"root":3}"#;

fn config_text(alloc: Global, config: PipeConfig) -> Result<String, AllocError> {
    let PipeConfig {
        workers,
        chunk_rows,
        row_limit,
    } = config;
    format!(in alloc; "workers {workers}, chunk_rows {chunk_rows}, row_limit {row_limit}\n")
}

fn key_text(keys: &[Expr]) -> &str {
    match keys {
        [Expr::Col(name)] => name.as_str(),
        _ => "no plain column",
    }
}

fn hint_text(alloc: Global, hint: RowsHint) -> Result<String, AllocError> {
    let RowsHint { known, estimate } = hint;
    match known {
        Some(known) => format!(in alloc; "{known} known, {estimate} estimated"),
        None => format!(in alloc; "{estimate} estimated"),
    }
}

fn options_text(alloc: Global, options: &JoinOptions) -> Result<String, AllocError> {
    let left = hint_text(alloc, options.rows_left)?;
    let right = hint_text(alloc, options.rows_right)?;
    format!(in alloc;
        "{:?}, join_nulls {}, {:?}, suffix {}; left {left}; right {right}",
        options.how,
        options.join_nulls,
        options.coalesce,
        options.suffix.as_str()
    )
}

fn node_text(alloc: Global, node: &IR) -> Result<String, AllocError> {
    match node {
        IR::DataFrameScan { frame, columns } => if columns.is_none() {
            format!(in alloc; "scan of frame {frame}\n")
        } else {
            format!(in alloc; "scan of columns of frame {frame}\n")
        },
        IR::Join {
            left,
            right,
            left_on,
            right_on,
            options,
        } => {
            let options = options_text(alloc, options)?;
            format!(in alloc;
                "join of {left} by {} with {right} by {}: {options}\n",
                key_text(left_on.as_slice()),
                key_text(right_on.as_slice())
            )
        }
        IR::Sort { input, by, options } => format!(in alloc;
            "sort of {input} by {} keys with {} and {} flags, slice {}\n",
            by.len(),
            options.descending.len(),
            options.nulls_last.len(),
            options.slice.is_some()
        ),
        _ => String::from_str(alloc, "another node\n"),
    }
}

fn job_text(alloc: Global, job: &Job) -> Result<String, AllocError> {
    let mut text = config_text(alloc, job.config)?;
    for frame in job.arena.frames.as_slice() {
        text.push_str(format!(in alloc; "frame of {} rows\n", frame.height())?.as_str())?;
    }
    for node in job.arena.nodes.as_slice() {
        text.push_str(node_text(alloc, node)?.as_str())?;
    }
    text.push_str(format!(in alloc; "root {}\n", job.root)?.as_str())?;
    Ok(text)
}

pub(crate) fn of_a_sorted_join(alloc: Global) -> Result<String, AllocError> {
    match read_job(alloc, JOINED.as_bytes()) {
        Ok(job) => job_text(alloc, &job),
        Err(_) => String::from_str(alloc, "not read\n"),
    }
}
