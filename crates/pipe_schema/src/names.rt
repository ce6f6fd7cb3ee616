//! Names: whether each of some things has a name of its own.

ghost use Rattle.std.specs.Prelude.{◌≡◌, ℕ, List, ◌⊎◌, IfOk, IfErr, OnOk, None, Some, map};
ghost use Rattle.std.specs.Option.{option_copied};
ghost use Rattle.pipe_schema.specs.Schema.{MemoryOr, has_name, first_repeated, names_fault};

use crate::error::FrameError;
use crate::field::Field;
use crate::text::Text;
use crate::try_clone::TryClone;
use std::alloc::{AllocError, Global};
use std::collections::BTreeMap;

/// What has a name.
pub trait Named {
    /// The name.
    ghost name: { Self → List ℕ };

    /// The name.
    fn name(&self) -> &Text
        ensures { result.now ≡ name self.now };
}

impl Named for Field {
    ghost use Rattle.pipe_schema.specs.Schema.{name_of};

    ghost name = { name_of };

    fn name(&self) -> &Text {
        &self.name
    }
}

impl Named for Text {
    ghost name = { λ text. text };

    fn name(&self) -> &Text {
        self
    }
}

/// How many names are compared each with each, which needs no memory and is faster for so few.
const FEW: usize = 16;

/// Whether a name stands among the names of some things.
fn has_item<N: Named>(items: &[N], name: &Text) -> bool
    ensures { result ≡ has_name (map N.name items.now) name.now }
{
    for item in items {
        if item.name().is_same(name) {
            return true;
        }
    }
    false
}

/// The first name that stands again further on, by looking at all names behind each.
fn repeated_of_few<N: Named>(items: &[N]) -> Option<&Text>
    ensures { option_copied result ≡ first_repeated (map N.name items.now) }
{
    for i in 0..items.len() {
        let name = items[i].name();
        if has_item(&items[i + 1..], name) {
            return Some(name);
        }
    }
    None
}

/// The first name that stands again further on, by a map of the names behind each: an ordered one, which no choice of
/// names makes slow.
fn repeated_of_many<N: Named>(alloc: Global, items: &[N]) -> Result<Option<&Text>, AllocError>
    ensures { IfOk result (λ name. option_copied name ≡ first_repeated (map N.name items.now)) }
{
    let mut later: BTreeMap<&str, ()> = BTreeMap::new(alloc);
    let mut found = None;
    let mut i = items.len();
    while i > 0 {
        i -= 1;
        let name = items[i].name();
        if later.insert(name.as_str(), ())?.is_some() {
            found = Some(name);
        }
    }
    Ok(found)
}

/// The first of the names of some things that stands again further on, in time that grows as their count does, but for a logarithm.
pub fn first_repeated<N: Named>(alloc: Global, items: &[N]) -> Result<Option<&Text>, AllocError>
    ensures { IfOk result (λ name. option_copied name ≡ first_repeated (map N.name items.now)) }
{
    if items.len() <= FEW {
        Ok(repeated_of_few(items))
    } else {
        Ok(repeated_of_many(alloc, items)?)
    }
}

/// Nothing, or what is wrong with the names of some things.
pub fn check_names<N: Named>(alloc: Global, items: &[N]) -> Result<(), FrameError>
    ensures ok { OnOk result (names_fault (map N.name items.now) ≡ None) }
    ensures err { IfErr result (MemoryOr (names_fault (map N.name items.now))) }
{
    if items.is_empty() {
        return Err(FrameError::NoColumns);
    }
    match first_repeated(alloc, items)? {
        Some(name) => Err(FrameError::DuplicateName(name.try_clone()?)),
        None => Ok(()),
    }
}
