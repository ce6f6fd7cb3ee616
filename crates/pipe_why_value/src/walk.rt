//! The state of a walk through a value: where it stands, and what it has found.

ghost use Rattle.std.specs.Prelude.{◌≡◌, ◌++◌, ◌∷◌, List, [], Some, None, true, IsSome, OnOk, codes};
ghost use Rattle.json.specs.Json.{Json as Written};
ghost use Rattle.serde_json.specs.Data.{Data, string};
ghost use Rattle.serde_json.specs.Find.{at, get};
ghost use Rattle.pipe_value.specs.Items.{IsArrayOf};
ghost use Rattle.pipe_value.specs.View.{view};
ghost use Rattle.pipe_job.specs.Shape.{text_in};
ghost use Rattle.pipe_why_text.specs.Members.{HasMember, members_in, members_of, plain, type_of};
ghost use Rattle.pipe_why_text.specs.Wanted.{SpellsJob, is_wanted};
ghost use Rattle.pipe_why_value.specs.Places.{AreGoodBefore, AreGoodParts, IsBadCell, IsGood, IsInner, IsOwn, IsWrong, Place, wanted_at};
ghost use Rattle.pipe_why_value.specs.Walks.{Entered, Left, Looked, Noted};

use crate::cells::bad_cells;
use crate::edits::Tables;
use crate::order::Last;
use crate::wrong::{Misfit, Misfits, Wrong};
use pipe_schema::{DataType, Text};
use pipe_value::Value;
use pipe_why_text::{Member, Step, Want, copies, is_spelled, type_named};
use std::alloc::{AllocError, Global};

/// What was found so far.
#[derive(Drop)]
pub(crate) struct Walk {
    pub(crate) alloc: Global,
    /// Whether types may be Int128.
    is_wide: bool,
    /// The tables that are edited.
    pub(crate) tables: Tables,
    /// The steps to where the walk is.
    steps: Vec<Step>,
    /// How many members on the way to where the walk is stand twice.
    repeated: usize,
    pub(crate) first: Option<Misfit>,
    /// How many places are wrong.
    pub(crate) found: usize,
}

/// The text that a value is, the empty one where it is none.
pub(crate) fn text_of(value: &Value) -> &str
    ensures { result.now ≡ text_in (Some (view value.now)) }
{
    match value.as_str() {
        Some(text) => text,
        None => "",
    }
}

/// The text that the member of a name is, the empty one where it is none.
pub(crate) fn word_in<'v>(value: &'v Value, name: &str) -> &'v str
    ensures { result.now ≡ text_in (get name.now (view value.now)) }
{
    match value.get(name) {
        Some(member) => text_of(member),
        None => "",
    }
}

/// The type that a column or a literal has.
pub(crate) fn type_in(value: &Value) -> Option<DataType>
    ensures { result ≡ type_of (view value.now) }
{
    type_named(word_in(value, "type"))
}

/// How many members stand twice on the way to a member, with so many on the way to its object.
fn repeated_with(repeated: usize, last: Last) -> usize {
    if last.is_repeated {
        repeated.saturating_add(1)
    } else {
        repeated
    }
}

impl Walk {
    /// A walk that has found nothing.
    pub(crate) fn new(alloc: Global, is_wide: bool, tables: Tables) -> Walk
        ensures steps { result.steps.items ≡ [] }
        ensures first { result.first ≡ None }
    {
        Walk {
            alloc,
            is_wide,
            tables,
            steps: Vec::new(alloc),
            repeated: 0,
            first: None,
            found: 0,
        }
    }

    /// What was found.
    pub(crate) fn misfits(self) -> Misfits
        ensures { result.first ≡ self.first }
    {
        let Walk {
            alloc: _,
            is_wide: _,
            tables: _,
            steps: _,
            repeated: _,
            first,
            found,
        } = self;
        Misfits { first, found }
    }

    /// Takes note of something wrong where the walk is.
    pub(crate) fn note(&mut self, wrong: Wrong) -> Result<(), AllocError>
        ensures noted { OnOk result (Noted wrong self.old self.new) }
        ensures some { OnOk result (IsSome self.new.first) }
    {
        self.found = self.found.saturating_add(1);
        if self.first.is_none() {
            let steps = copies(self.alloc, self.steps.as_slice())?;
            self.first = Some(Misfit {
                steps,
                wrong,
                is_repeated: self.repeated != 0,
            });
        }
        Ok(())
    }

    /// Goes to a member.
    pub(crate) fn enter(&mut self, name: &str) -> Result<(), AllocError>
        ensures { OnOk result (Entered (Step.Member name.now) self.old self.new) }
    {
        self.steps
            .push(Step::Member(Text::from_str(self.alloc, name)?))?;
        Ok(())
    }

    /// Goes to an item.
    pub(crate) fn enter_item(&mut self, i: usize) -> Result<(), AllocError>
        ensures { OnOk result (Entered (Step.Item i) self.old self.new) }
    {
        self.steps.push(Step::Item(i))?;
        Ok(())
    }

    /// Goes back.
    pub(crate) fn leave(&mut self)
        ensures { Left self.old self.new }
    {
        let above = self.steps.as_slice().len().saturating_sub(1);
        self.steps.truncate(above);
    }

    /// Whether a value is a type that the version doesn't have.
    fn is_too_wide(&self, want: Want, value: &Value) -> bool
        ensures want { result ≡ true → want ≡ Want.Type }
        ensures value { result ≡ true → view value.now ≡ string (codes "Int128") }
    {
        match want {
            Want::Type => !self.is_wide && value.as_str() == Some("Int128"),
            _ => false,
        }
    }

    /// Takes note of a value that doesn't spell what is wanted, of whose parts nothing was noted.
    pub(crate) fn judge(&mut self, want: Want, value: &Value) -> Result<(), AllocError>
        ensures looked { OnOk result ((t : Written) → (self.old.first ≡ None
            → AreGoodParts (want, view value.now, t)) → Looked (want, view value.now, t) self.old self.new) }
        ensures good { OnOk result
            (self.new.first ≡ None → is_wanted want (view value.now) ≡ true) }
        ensures job { OnOk result
            (self.new.first ≡ None → want ≡ Want.Job → SpellsJob (view value.now)) }
    {
        if self.is_too_wide(want, value) {
            return self.note(Wrong::Wide);
        }
        let holds = is_spelled(self.alloc, want, value)?;
        if holds {
            return Ok(());
        }
        self.note(Wrong::Other(want))
    }

    /// Goes to a member that counts. What is given is for the way back.
    pub(crate) fn enter_member(&mut self, name: &str, last: Last) -> Result<usize, AllocError>
        ensures { OnOk result (Entered (Step.Member name.now) self.old self.new) }
    {
        let repeated = self.repeated;
        self.repeated = repeated_with(repeated, last);
        self.enter(name)?;
        Ok(repeated)
    }

    /// Goes back from a member.
    pub(crate) fn leave_member(&mut self, repeated: usize)
        ensures { Left self.old self.new }
    {
        self.repeated = repeated;
        self.leave();
    }

    /// Takes note of something wrong with an item.
    pub(crate) fn note_item(&mut self, i: usize, wrong: Wrong) -> Result<(), AllocError>
        ensures looked { OnOk result ((p : Place) (e : Data) → at i p.1 ≡ Some e
            → (self.old.first ≡ None → AreGoodBefore p i)
            → ((steps : List Step) → IsWrong wrong steps e)
            → ((root : Place) (above : List Step) → wanted_at above root ≡ Some p
            → IsOwn root wrong (above ++ Step.Item i ∷ []))
            → ((root : Place) (steps : List Step) → IsInner root wrong steps)
            → Looked p self.old self.new) }
        ensures some { OnOk result (IsSome self.new.first) }
    {
        self.enter_item(i)?;
        self.note(wrong)?;
        self.leave();
        Ok(())
    }

    /// Takes note of something wrong with a member of an item.
    pub(crate) fn note_at(&mut self, i: usize, name: &str, wrong: Wrong) -> Result<(), AllocError>
        ensures { OnOk result ((p : Place) (e f : Data)
            → at i p.1 ≡ Some e → get name.now e ≡ Some f
            → (self.old.first ≡ None → AreGoodParts p)
            → ((steps : List Step) → IsWrong wrong steps f)
            → ((root : Place) (above : List Step) → wanted_at above root ≡ Some p
            → IsOwn root wrong (above ++ Step.Item i ∷ Step.Member name.now ∷ []))
            → Looked p self.old self.new) }
    {
        self.enter_item(i)?;
        self.enter(name)?;
        self.note(wrong)?;
        self.leave();
        self.leave();
        Ok(())
    }

    /// Looks for a member that an object should have.
    fn missing_member(&mut self, member: &Member, value: &Value) -> Result<(), AllocError>
        ensures { OnOk result ((w : Want)
            → HasMember (members_of w (view value.now)) (plain member.now)
            → (t : Written) → (self.old.first ≡ None → AreGoodParts (w, view value.now, t))
            → Looked (w, view value.now, t) self.old self.new) }
    {
        match value.get(member.0) {
            Some(_) => Ok(()),
            None => self.note(Wrong::Missing(member.0, member.1)),
        }
    }

    /// Looks for members that an object lacks.
    pub(crate) fn missing(
        &mut self,
        known: &'static [Member],
        value: &Value,
    ) -> Result<(), AllocError>
        ensures { OnOk result ((w : Want) → members_in known.now ≡ members_of w (view value.now)
            → (t : Written) → (self.old.first ≡ None → AreGoodParts (w, view value.now, t))
            → Looked (w, view value.now, t) self.old self.new) }
    {
        for member in known {
            self.missing_member(member, value)?;
        }
        Ok(())
    }

    /// Takes note of the first bad cell of a column, one of so many.
    fn bad_cell(
        &mut self,
        dtype: DataType,
        parent: &Value,
        row: usize,
        count: usize,
    ) -> Result<(), AllocError>
        ensures looked { OnOk result ((d : Data) (t : Written) → IsBadCell dtype d row
            → (self.old.first ≡ None → AreGoodBefore (Want.Cells dtype, d, t) row)
            → Looked (Want.Cells dtype, d, t) self.old self.new) }
        ensures some { OnOk result (IsSome self.new.first) }
    {
        let column = String::from_str(self.alloc, word_in(parent, "name"))?;
        self.note_item(
            row,
            Wrong::Cell {
                dtype,
                column,
                count,
            },
        )?;
        self.found = self.found.saturating_add(count.saturating_sub(1));
        Ok(())
    }

    /// Looks at so many cells of a column.
    fn counted_cells(
        &mut self,
        dtype: DataType,
        parent: &Value,
        value: &Value,
        count: usize,
    ) -> Result<(), AllocError>
        requires { IsArrayOf (view value.now) count }
        ensures looked { OnOk result
            ((t : Written) → Looked (Want.Cells dtype, view value.now, t) self.old self.new) }
        ensures good { OnOk result ((t : Written) → self.new.first ≡ None
            → IsGood (Want.Cells dtype, view value.now, t)) }
    {
        let bad = bad_cells(self.alloc, dtype, value, count)?;
        match bad.first {
            Some(row) => self.bad_cell(dtype, parent, row, bad.count),
            None => Ok(()),
        }
    }

    /// Looks at the cells of a column.
    pub(crate) fn cells(
        &mut self,
        dtype: DataType,
        parent: &Value,
        value: &Value,
    ) -> Result<(), AllocError>
        ensures looked { OnOk result
            ((t : Written) → Looked (Want.Cells dtype, view value.now, t) self.old self.new) }
        ensures good { OnOk result ((t : Written) → self.new.first ≡ None
            → IsGood (Want.Cells dtype, view value.now, t)) }
    {
        match value.array_len()? {
            Some(count) => self.counted_cells(dtype, parent, value, count),
            None => self.note(Wrong::Other(Want::Cells(dtype))),
        }
    }
}
