//! Edits that are played on a view.

ghost use Rattle.std.specs.Prelude.{◌≡◌, true, length, IfErr, IfOk, OnErr, OnOk};
ghost use Rattle.pipe_view.specs.Kept.{IsSameView, IsWithin, fields_on};
ghost use Rattle.pipe_view.specs.Played.{AreWide, IsEditRefusal, IsPlayRefusal, IsStuck, IsTooMuch, after_edit, after_edits, outcome_of, outcomes_of};
ghost use Rattle.pipe_view.specs.Sides.{is_view_kind};

use crate::error::ViewError;
use crate::row_edit::{EditKind, Outcome, RowEdit};
use crate::view::View;
use pipe_schema::List;
use std::alloc::Global;

impl View {
    /// A view is an inner, a left or a full join.
    fn is_kept(&self)
        ensures { is_view_kind self.now.options.how ≡ true }
    {
        let _counts = self.counts;
    }

    /// Makes an edit: it is told how many rows it added to the view and took from it, or that there is no row to take
    /// out. `TooMany` where a row is put in and a table or the view would have more rows than the limit.
    pub fn play(&mut self, edit: RowEdit) -> Result<Outcome, ViewError>
        requires { length edit.row ≡ length (fields_on edit.side self.old) }
        ensures tables { OnOk result (IsSameView self.new (after_edit edit self.old)) }
        ensures outcome { IfOk result (λ told. told ≡ outcome_of edit self.old) }
        ensures within { OnOk result (IsTooMuch edit self.old → ⊥) }
        ensures err { IfErr result (IsEditRefusal edit self.old) }
        ensures unchanged { OnErr result (self.new ≡ self.old) }
    {
        self.is_kept();
        let RowEdit { side, kind, row } = edit;
        match kind {
            EditKind::Insert => {
                let delta = self.insert(side, row)?;
                Ok(Outcome::Changed(delta.plus.len(), delta.minus.len()))
            }
            EditKind::Remove => match self.remove(side, &row) {
                Ok(delta) => Ok(Outcome::Changed(delta.plus.len(), delta.minus.len())),
                Err(ViewError::Absent) => Ok(Outcome::Absent),
                Err(_) => Err(ViewError::Memory),
            },
        }
    }

    /// Plays edits, one after another, and tells what each did. Where one can't be made, those before it are, and none
    /// behind it is.
    pub fn play_all(
        &mut self,
        alloc: Global,
        edits: List<RowEdit>,
    ) -> Result<List<Outcome>, ViewError>
        requires { AreWide edits self.old }
        ensures tables { OnOk result (IsSameView self.new (after_edits edits self.old)) }
        ensures outcomes { IfOk result (λ told. told ≡ outcomes_of edits self.old) }
        ensures within { OnOk result (IsStuck edits self.old → ⊥) }
        ensures err { IfErr result (IsPlayRefusal edits self.old) }
    {
        self.is_kept();
        let mut outcomes = List::new(alloc);
        for edit in edits.into_vec() {
            let outcome = self.play(edit)?;
            outcomes.push(outcome)?;
        }
        Ok(outcomes)
    }
}
