//! A view of two tables of integers, and a list of edits played on it.

use crate::views::told::push_rows;
use pipe_expr::{Expr, JoinCoalesce, JoinType};
use pipe_frame::{DataFrame, Row};
use pipe_plan::{JoinOptions, PipeError, RowsHint};
use pipe_schema::{List, Text};
use pipe_view::{Delta, View, ViewError, ViewSide};
use std::alloc::{AllocError, Global};
use worked_columns::{INT, WrittenColumn, cell_of, frame_of};

/// How a view joins, and its limit.
#[derive(Clone, Copy)]
pub struct Settings {
    pub how: JoinType,
    pub join_nulls: bool,
    pub coalesce: JoinCoalesce,
    pub limit: u32,
}

/// The key: the column `k`.
fn key(alloc: Global) -> Result<List<Expr>, AllocError> {
    let mut on = List::new(alloc);
    on.push(Expr::Col(Text::from_str(alloc, "k")?))?;
    Ok(on)
}

fn options(alloc: Global, settings: Settings) -> Result<JoinOptions, AllocError> {
    let hint = RowsHint {
        known: None,
        estimate: 0,
    };
    Ok(JoinOptions {
        how: settings.how,
        join_nulls: settings.join_nulls,
        coalesce: settings.coalesce,
        suffix: Text::from_str(alloc, "_right")?,
        rows_left: hint,
        rows_right: hint,
    })
}

/// The row of some words.
fn row_of(alloc: Global, words: &str) -> Result<Row, AllocError> {
    let mut row = List::new(alloc);
    for word in words.split_whitespace() {
        row.push(cell_of(alloc, INT, word)?)?;
    }
    Ok(row)
}

/// One edit: `L+` or `R+` and the row that is put in, `L-` or `R-` and the row that is taken out.
fn edited(
    alloc: Global,
    view: &mut View,
    side: ViewSide,
    insert: bool,
    words: &str,
) -> Result<Delta, ViewError> {
    let row = row_of(alloc, words)?;
    if !insert {
        return view.remove(side, &row);
    }
    if row.len() != view.table_schema(side).len() {
        return Err(ViewError::Absent);
    }
    view.insert(side, row)
}

/// What an edit's answer is, as lines.
fn push_answer(
    told: &mut String,
    alloc: Global,
    answer: Result<Delta, ViewError>,
) -> Result<(), AllocError> {
    match answer {
        Ok(delta) => {
            push_rows(told, alloc, "plus", delta.plus.as_slice())?;
            push_rows(told, alloc, "minus", delta.minus.as_slice())
        }
        Err(ViewError::Absent) => told.push_str("absent\n"),
        Err(ViewError::TooMany) => told.push_str("too many\n"),
        Err(ViewError::Memory) => Err(AllocError),
    }
}

/// The edit that a line spells, its answer and the line itself.
fn push_edit(
    told: &mut String,
    alloc: Global,
    view: &mut View,
    line: &str,
) -> Result<(), AllocError> {
    told.push_str(line)?;
    told.push_str("\n")?;
    let Some((word, cells)) = line.split_once(" ") else {
        return Ok(());
    };
    let side = if word == "L+" || word == "L-" {
        ViewSide::Left
    } else {
        ViewSide::Right
    };
    let answer = edited(alloc, view, side, word == "L+" || word == "R+", cells);
    push_answer(told, alloc, answer)
}

/// Why a view isn't made, as a line.
fn push_refusal(told: &mut String, alloc: Global, error: PipeError) -> Result<(), AllocError> {
    match error {
        PipeError::Memory => Err(AllocError),
        PipeError::TooMany(n) => {
            told.push_str("too many at node ")?;
            told.push_str(n.to_string(alloc)?.as_str())?;
            told.push_str("\n")
        }
        PipeError::BadJoin(_) => told.push_str("bad join\n"),
        PipeError::UnknownColumn(_, _) => told.push_str("unknown column\n"),
        _ => told.push_str("another fault\n"),
    }
}

/// The edits and their answers, and the rows at the end.
fn push_edits(
    told: &mut String,
    alloc: Global,
    view: &mut View,
    edits: &[&str],
) -> Result<(), AllocError> {
    for line in edits {
        push_edit(told, alloc, view, line)?;
    }
    let rows = view.rows()?;
    push_rows(told, alloc, "rows", rows.as_slice())
}

/// A view of two frames.
fn made(
    alloc: Global,
    left: DataFrame,
    right: DataFrame,
    settings: Settings,
) -> Result<View, PipeError> {
    let on_left = key(alloc)?;
    let on_right = key(alloc)?;
    let options = options(alloc, settings)?;
    View::new(
        alloc,
        left,
        right,
        on_left,
        on_right,
        options,
        settings.limit,
    )
}

/// A view of two tables, whose edits are told line by line.
pub fn played(
    alloc: Global,
    name: &str,
    left: &[WrittenColumn],
    right: &[WrittenColumn],
    settings: Settings,
    edits: &[&str],
) -> Result<String, AllocError> {
    let mut told = String::from_str(alloc, name)?;
    told.push_str("\n")?;
    let (Some(left), Some(right)) = (frame_of(alloc, left)?, frame_of(alloc, right)?) else {
        return Ok(told);
    };
    match made(alloc, left, right, settings) {
        Ok(mut view) => push_edits(&mut told, alloc, &mut view, edits)?,
        Err(error) => push_refusal(&mut told, alloc, error)?,
    }
    Ok(told)
}
