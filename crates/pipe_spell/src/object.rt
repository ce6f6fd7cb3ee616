//! Objects, whose members are put in from the last name to the first.

ghost use Rattle.std.specs.Prelude.{◌≡◌, true, codes, IfOk, OnOk};
ghost use Rattle.serde_json.specs.Data.{member, no_members, object, string};
ghost use Rattle.pipe_value.specs.View.{view, members_view};
ghost use Rattle.pipe_job.specs.Spelling.{single};
ghost use Rattle.pipe_spell.specs.Before.{is_before};

use crate::spell::Spell;
use pipe_value::Value;
use std::alloc::{AllocError, Global};
use std::collections::BTreeMap;

/// The members of an object, of which the first ones are still to come.
#[derive(Drop)]
pub(crate) struct Object {
    pub(crate) members: BTreeMap<String, Value>,
}

impl Object {
    /// No members.
    pub(crate) fn new(alloc: Global) -> Object
        ensures { members_view result.members.entries ≡ no_members }
    {
        Object {
            members: BTreeMap::new(alloc),
        }
    }

    /// Puts a member before all others.
    #[tactic(auto, using(crate::proofs::Putting::put_entry))]
    pub(crate) fn put(&mut self, alloc: Global, name: &str, value: Value) -> Result<(), AllocError>
        requires { is_before name.now (members_view self.old.members.entries) ≡ true }
        ensures { OnOk result (members_view self.new.members.entries
            ≡ member name.now (view value) (members_view self.old.members.entries)) }
    {
        let key = String::from_str(alloc, name)?;
        drop(self.members.insert(key, value)?);
        Ok(())
    }

    /// Puts a member before all others, with the value that spells an item.
    pub(crate) fn field<T: Spell>(
        &mut self,
        alloc: Global,
        name: &str,
        item: &T,
    ) -> Result<(), AllocError>
        requires { is_before name.now (members_view self.old.members.entries) ≡ true }
        ensures spelled { OnOk result (members_view self.new.members.entries
            ≡ member name.now (T.spelling item.now) (members_view self.old.members.entries)) }
        ensures fits { OnOk result (T.fits item.now) }
    {
        let value = item.spell(alloc)?;
        self.put(alloc, name, value)
    }

    /// Puts a member before all others, with a word for its value.
    pub(crate) fn word(&mut self, alloc: Global, name: &str, word: &str) -> Result<(), AllocError>
        requires { is_before name.now (members_view self.old.members.entries) ≡ true }
        ensures { OnOk result (members_view self.new.members.entries
            ≡ member name.now (string word.now) (members_view self.old.members.entries)) }
    {
        let value = Value::String(String::from_str(alloc, word)?);
        self.put(alloc, name, value)
    }

    /// The object of these members.
    pub(crate) fn into_value(self) -> Value
        ensures { view result ≡ object (members_view self.members.entries) }
    {
        let Object { members } = self;
        Value::Object(members)
    }
}

/// The object of one member.
pub(crate) fn single(alloc: Global, name: &str, value: Value) -> Result<Value, AllocError>
    ensures { IfOk result (λ made. view made ≡ single name.now (view value)) }
{
    let mut object = Object::new(alloc);
    object.put(alloc, name, value)?;
    Ok(object.into_value())
}
