//! The columns of a frame, taken one after another.

ghost use Rattle.std.specs.Prelude.{◌≡◌, [], ◌∷◌, None, IfSome};
ghost use Rattle.pipe_frame.specs.Frame.{columns_of};

use crate::data_frame::DataFrame;
use pipe_column::Series;
use std::collections::VecDeque;
use std::marker::Model;

/// The columns of a frame that weren't taken yet, seen as a list.
#[derive(Drop)]
pub(crate) struct ColumnQueue {
    columns: VecDeque<Series>,
}

impl Model for ColumnQueue {
    ghost use Rattle.std.specs.Prelude.{List};
    ghost use Rattle.pipe_column.specs.Series.{Cells};

    ghost Value = { List Cells };

    ghost view = { λ q. q.columns.items };
}

impl ColumnQueue {
    /// All columns of a frame.
    pub(crate) fn of_frame(frame: DataFrame) -> ColumnQueue
        ensures { result ≡ columns_of frame }
    {
        ColumnQueue {
            columns: VecDeque::from_vec(frame.into_columns()),
        }
    }

    /// Takes the first column.
    pub(crate) fn take_first(&mut self) -> Option<Series>
        ensures some { IfSome result (λ column. self.old ≡ column ∷ self.new) }
        ensures none { result ≡ None → self.old ≡ [] }
    {
        self.columns.pop_front()
    }
}
