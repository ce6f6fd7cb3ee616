//! Views that are made, edited and told.

ghost use Rattle.std.specs.Prelude.{◌≡◌, ◌⊎◌, ◌++◌, true, false, None, flat_map, IfErr, IfOk, OnOk};
ghost use Rattle.std.specs.List.{AllByRecursion};
ghost use Rattle.pipe_job.specs.Line.{row_line};
ghost use Rattle.pipe_view.specs.Kept.{IsSameView, view_over};
ghost use Rattle.pipe_view.specs.Played.{AreWide, IsStuck, after_edits, outcomes_of};
ghost use Rattle.pipe_view.specs.EditSpelling.{EditFits};
ghost use Rattle.pipe_view.specs.ReplayEnds.{AreLines, AreReplayLines, IsBadLimit, IsGoodView, IsRefusedReplay, IsSoundReplay, IsViewFault, is_good_limit};
ghost use Rattle.pipe_view.specs.ReplaySpelling.{replay_task};

use crate::error::ViewError;
use crate::lines::push_outcomes;
use crate::replay::{KeptJoin, Replay};
use crate::row_edit::{Outcome, RowEdit};
use crate::view::View;
use pipe_frame::{DataFrame, Row};
use pipe_job::{push_head_line, push_row_line};
use pipe_plan::PipeError;
use pipe_schema::List;
use std::alloc::{AllocError, Global};

/// The most rows that a table or a view may have.
const MOST_ROWS: u32 = 4_294_967_294;

/// Whether a view may have a limit.
fn is_good_limit(limit: u32) -> bool
    ensures { result ≡ is_good_limit limit }
{
    1 <= limit && limit <= MOST_ROWS
}

/// The view of two tables, before its edits.
fn view_of(
    alloc: Global,
    left: DataFrame,
    right: DataFrame,
    join: KeptJoin,
    limit: u32,
) -> Result<View, PipeError>
    ensures ok { let made = view_over left right join.left_on join.right_on join.options limit in
        IfOk result (λ view. IsSameView view made) }
    ensures good { let made = view_over left right join.left_on join.right_on join.options limit in
        OnOk result (IsGoodView made) }
    ensures err { let made = view_over left right join.left_on join.right_on join.options limit in
        IfErr result (λ e. (e ≡ PipeError.Memory) ⊎ (IsBadLimit made e ⊎ IsViewFault made e)) }
{
    if !is_good_limit(limit) {
        return Err(PipeError::BadConfig);
    }
    let KeptJoin {
        left_on,
        right_on,
        options,
    } = join;
    View::new(alloc, left, right, left_on, right_on, options, limit)
}

/// What each of some edits does to a view.
fn play_on(alloc: Global, view: &mut View, edits: List<RowEdit>) -> Result<List<Outcome>, PipeError>
    requires { AreWide edits view.old }
    ensures tables { OnOk result (IsSameView view.new (after_edits edits view.old)) }
    ensures outcomes { IfOk result (λ told. told ≡ outcomes_of edits view.old) }
    ensures within { OnOk result (IsStuck edits view.old → ⊥) }
    ensures err { IfErr result
        (λ e. (e ≡ PipeError.Memory) ⊎ ((e ≡ PipeError.TooMany 2) × IsStuck edits view.old)) }
{
    match view.play_all(alloc, edits) {
        Ok(outcomes) => Ok(outcomes),
        Err(ViewError::TooMany) => Err(PipeError::TooMany(2)),
        Err(_) => Err(PipeError::Memory),
    }
}

/// Appends the lines of some rows.
fn push_row_lines(out: &mut Vec<u8>, rows: &[Row]) -> Result<(), AllocError>
    ensures { OnOk result (out.new.items ≡ out.old.items ++ flat_map row_line rows.now) }
{
    for row in rows {
        push_row_line(out, row.as_slice())?;
    }
    Ok(())
}

/// The lines of a view and of the edits that were played on it.
fn lines_of(alloc: Global, view: &View, outcomes: &[Outcome]) -> Result<Vec<u8>, AllocError>
    ensures { IfOk result (λ text. AreLines view.now outcomes.now text.items) }
{
    let rows = view.rows()?;
    let mut text = Vec::new(alloc);
    push_head_line(&mut text, view.schema())?;
    push_outcomes(&mut text, outcomes)?;
    push_row_lines(&mut text, rows.as_slice())?;
    Ok(text)
}

/// Makes a view, plays its edits one after another, and gives the lines of both: the names of the view's columns, a
/// line for each edit, and the rows after the last of them in the order of all columns. `BadConfig` where the limit is
/// out of its range, the fault of the view, and `TooMany` of node 2 where an edit would make a table or the view too
/// long: nothing is told then, also where it is the last.
#[tactic(auto, using(crate::proofs::Replayed::replay_rules))]
pub fn replay_lines(alloc: Global, replay: Replay) -> Result<Vec<u8>, PipeError>
    requires { AllByRecursion (EditFits replay.left.schema replay.right.schema) replay.edits }
    ensures sound { OnOk result (IsSoundReplay (replay_task replay)) }
    ensures lines { IfOk result (λ text. AreReplayLines (replay_task replay) text.items) }
    ensures err { IfErr result
        (λ e. (e ≡ PipeError.Memory) ⊎ IsRefusedReplay (replay_task replay) e) }
{
    let Replay {
        version: _,
        row_limit,
        left,
        right,
        join,
        edits,
    } = replay;
    let mut view = view_of(alloc, left, right, join, row_limit)?;
    let outcomes = play_on(alloc, &mut view, edits)?;
    let text = lines_of(alloc, &view, outcomes.as_slice())?;
    Ok(text)
}
