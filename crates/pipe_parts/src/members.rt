//! Members of objects, which are put in from the last name to the first.

ghost use Rattle.std.specs.Prelude.{◌≡◌, true, OnOk};
ghost use Rattle.serde_json.specs.Data.{member, string};
ghost use Rattle.pipe_value.specs.View.{members_view, view};
ghost use Rattle.pipe_job.specs.Spelling.{whole};
ghost use Rattle.pipe_spell.specs.Before.{is_before};

use pipe_value::Value;
use serde_json::Number;
use std::alloc::{AllocError, Global};
use std::collections::BTreeMap;

/// Puts a member before all others.
#[tactic(auto, using(pipe_spell::proofs::Putting::put_entry))]
pub(crate) fn put(
    alloc: Global,
    members: &mut BTreeMap<String, Value>,
    name: &str,
    value: Value,
) -> Result<(), AllocError>
    requires { is_before name.now (members_view members.old.entries) ≡ true }
    ensures { OnOk result (members_view members.new.entries
        ≡ member name.now (view value) (members_view members.old.entries)) }
{
    let key = String::from_str(alloc, name)?;
    drop(members.insert(key, value)?);
    Ok(())
}

/// Puts a member before all others, with a word for its value.
pub(crate) fn put_word(
    alloc: Global,
    members: &mut BTreeMap<String, Value>,
    name: &str,
    word: &str,
) -> Result<(), AllocError>
    requires { is_before name.now (members_view members.old.entries) ≡ true }
    ensures { OnOk result (members_view members.new.entries
        ≡ member name.now (string word.now) (members_view members.old.entries)) }
{
    let value = Value::String(String::from_str(alloc, word)?);
    put(alloc, members, name, value)
}

/// Puts a member before all others, with a number for its value.
pub(crate) fn put_number(
    alloc: Global,
    members: &mut BTreeMap<String, Value>,
    name: &str,
    number: u32,
) -> Result<(), AllocError>
    requires { is_before name.now (members_view members.old.entries) ≡ true }
    ensures { OnOk result (members_view members.new.entries
        ≡ member name.now (whole number) (members_view members.old.entries)) }
{
    put(alloc, members, name, Value::Number(Number::from(number)))
}
