//! How a case is told: the class of each left row and of each right row, and what the check says; or why it is refused.

use crate::recon::cases::Case;
use crate::recon::checks::check_text;
use pipe_plan::{PipeConfig, PipeError};
use pipe_recon::{Partner, Recon, ReconSpec};
use pipe_reconcile::reconcile;
use pipe_schema::{NeverStop, OpenGate};
use std::alloc::{AllocError, Global};
use std::thread::Threads;
use worked_columns::{frame_of, texts};

/// How each case is run.
const CONFIG: PipeConfig = PipeConfig {
    workers: 3,
    chunk_rows: 2,
    row_limit: 4_294_967_294,
};

fn push_classes(
    alloc: Global,
    line: &mut String,
    side: &str,
    classes: &[Partner],
) -> Result<(), AllocError> {
    line.push_str(side)?;
    for class in classes {
        match class {
            Partner::Matched(row) => line.push_str(format!(in alloc; " {row}")?.as_str())?,
            Partner::Only => line.push_str(" -")?,
        }
    }
    Ok(())
}

fn classes_text(alloc: Global, recon: &Recon) -> Result<String, AllocError> {
    let mut line = String::new(alloc);
    push_classes(alloc, &mut line, "left", recon.left.as_slice())?;
    push_classes(alloc, &mut line, ", right", recon.right.as_slice())?;
    line.push_str("; ")?;
    Ok(line)
}

fn fault_text(alloc: Global, fault: &PipeError) -> Result<String, AllocError> {
    match fault {
        PipeError::UnknownColumn(n, name) => {
            let name = name.as_str();
            format!(in alloc; "UnknownColumn {n} {name}")
        }
        PipeError::TypeMismatch(n) => format!(in alloc; "TypeMismatch {n}"),
        PipeError::BadJoin(n) => format!(in alloc; "BadJoin {n}"),
        _ => String::from_str(alloc, "another error"),
    }
}

/// What comes of a case.
pub(crate) fn case_text<R: Threads + Sync>(
    rt: &R,
    alloc: Global,
    case: &Case,
) -> Result<String, AllocError> {
    let Some(left) = frame_of(alloc, case.left)? else {
        return String::from_str(alloc, "the left columns make no frame");
    };
    let Some(right) = frame_of(alloc, case.right)? else {
        return String::from_str(alloc, "the right columns make no frame");
    };
    let spec = ReconSpec {
        on: texts(alloc, case.on)?,
        join_nulls: case.join_nulls,
    };
    let mut stop = NeverStop::new();
    match reconcile(
        rt, alloc, &left, &right, &spec, &CONFIG, &mut stop, &OpenGate,
    ) {
        Ok(recon) => {
            let mut line = classes_text(alloc, &recon)?;
            line.push_str(check_text(alloc, &left, &right, &spec, &recon)?)?;
            Ok(line)
        }
        Err(fault) => fault_text(alloc, &fault),
    }
}
