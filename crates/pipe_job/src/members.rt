//! The members of an object, one by one in the order of their names, and other parts of values.

ghost use Rattle.std.specs.Prelude.{◌≡◌, false, MatchResult, IfOk};
ghost use Rattle.serde_json.specs.Data.{object, member, string, no_members, array, item, no_items};
ghost use Rattle.pipe_value.specs.Items.{item_data};
ghost use Rattle.pipe_value.specs.View.{view, members_view};
ghost use Rattle.pipe_job.specs.Shape.{begins, is_object, is_end, has, is_word, is_single, is_couple};
ghost use Rattle.pipe_job.specs.Reads.{ReadWhere};

use crate::lists::count_of;
use crate::misread::Misread;
use crate::spelled::Spelled;
use pipe_value::{Item, Value};
use std::alloc::Global;
use std::collections::btree_map::Iter;

/// What is left of an object's members, in the order of their names.
#[derive(Drop)]
pub struct Members<'a> {
    pub rest: Iter<'a, String, Value>,
}

impl<'a> Members<'a> {
    /// The members of a value that is an object.
    pub fn of(value: &'a Value) -> Result<Members<'a>, Misread>
        ensures { ReadWhere (is_object (view value.now))
            (λ m. view value.now ≡ object (members_view m.rest)) result }
    {
        match value {
            Value::Object(members) => Ok(Members {
                rest: members.iter(),
            }),
            _ => Err(Misread::Other),
        }
    }

    /// The value of the next member, where it has this name.
    pub fn take(&mut self, name: &str) -> Result<&'a Value, Misread>
        ensures { ReadWhere (begins name.now (members_view self.old.rest))
            (λ v. members_view self.old.rest
            ≡ member name.now (view v.now) (members_view self.new.rest)) result }
    {
        match self.rest.next() {
            Some((key, value)) => if key.as_str() == name {
                Ok(value)
            } else {
                Err(Misread::Other)
            },
            None => Err(Misread::Other),
        }
    }

    /// Reads the value of the next member, where it has this name.
    pub fn field<T: Spelled>(&mut self, alloc: Global, name: &str) -> Result<T, Misread>
        ensures { ReadWhere (has name.now T.shape (members_view self.old.rest))
            (λ x. (members_view self.old.rest
            ≡ member name.now (T.spelling x) (members_view self.new.rest)) × T.fits x) result }
    {
        let value = self.take(name)?;
        T::read(alloc, value)
    }

    /// Takes a member of this name with this word for its value.
    pub(crate) fn word(&mut self, name: &str, word: &str) -> Result<(), Misread>
        ensures { ReadWhere (has name.now (is_word word.now) (members_view self.old.rest))
            (λ _. members_view self.old.rest
            ≡ member name.now (string word.now) (members_view self.new.rest)) result }
    {
        let value = self.take(name)?;
        if value.as_str() == Some(word) {
            Ok(())
        } else {
            Err(Misread::Other)
        }
    }

    /// Takes no member, where there is none.
    pub fn end(&mut self) -> Result<(), Misread>
        ensures { ReadWhere (is_end (members_view self.old.rest))
            (λ _. members_view self.old.rest ≡ no_members) result }
    {
        match self.rest.next() {
            None => Ok(()),
            Some(_) => Err(Misread::Other),
        }
    }
}

/// The name and the value of an object's one member.
pub(crate) fn only_member(value: &Value) -> Result<(&str, &Value), Misread>
    ensures { ReadWhere (is_single (view value.now))
        (λ p. view value.now ≡ object (member p.0.now (view p.1.now) no_members)) result }
{
    let mut members = Members::of(value)?;
    match members.rest.next() {
        Some((name, inner)) => {
            members.end()?;
            Ok((name.as_str(), inner))
        }
        None => Err(Misread::Other),
    }
}

/// The items of an array of two.
#[tactic(auto, using(crate::proofs::Depths::couple_rules))]
pub fn two_items<'a>(alloc: Global, value: &'a Value) -> Result<(Item<'a>, Item<'a>), Misread>
    ensures { ReadWhere (is_couple (view value.now))
        (λ p. view value.now ≡ array (item (item_data p.0) (item (item_data p.1) no_items))) result }
{
    if count_of(value)? != 2 {
        return Err(Misread::Other);
    }
    let first = value.item(alloc, 0)?;
    let second = value.item(alloc, 1)?;
    Ok((first, second))
}
