//! Names found by where each stands first.

ghost use Rattle.std.specs.Prelude.{◌≡◌, ℕ, List, Some, None, if◌then◌else◌, OnOk, OnErr};
ghost use Rattle.std.specs.BTreeMap.{get_by_text, IsUnchanged};
ghost use Rattle.std.specs.Str.{bytes_eq};
ghost use Rattle.pipe_optimize.specs.Noted.{or_place, is_below as stands_below, AreNoted};

use pipe_schema::Text;
use std::alloc::{AllocError, Global};
use std::collections::BTreeMap;

/// For each of the first so many of some names where it stands first, in an ordered map, which no choice of names makes
/// slow.
#[derive(Drop)]
pub(crate) struct FirstPlaces {
    pub(crate) places: BTreeMap<String, usize>,
    pub(crate) count: usize,
}

/// Notes the place of a name, unless it has one.
fn note(places: &mut BTreeMap<String, usize>, name: &Text, place: usize) -> Result<(), AllocError>
    ensures noted { OnOk result ((q : List ℕ) → get_by_text places.new q ≡ or_place
        (get_by_text places.old q) (if bytes_eq name.now q then Some place else None)) }
    ensures err { OnErr result (IsUnchanged places.old places.new) }
{
    if places.contains_key(name.as_str()) {
        return Ok(());
    }
    let key = String::from_str(name.allocator(), name.as_str())?;
    places.insert(key, place)?;
    Ok(())
}

impl FirstPlaces {
    /// No place is noted.
    pub(crate) fn new(alloc: Global) -> FirstPlaces
        ensures { (names : List (List ℕ)) → AreNoted result names }
    {
        FirstPlaces {
            places: BTreeMap::new(alloc),
            count: 0,
        }
    }

    /// Whether a name has a place below a number.
    pub(crate) fn is_below(&self, n: usize, name: &Text) -> bool
        ensures { result ≡ stands_below n (get_by_text self.now.places name.now) }
    {
        match self.places.get(name.as_str()) {
            Some(place) => *place < n,
            None => false,
        }
    }

    /// Notes all of some names, of which the first so many are noted.
    pub(crate) fn note_all(&mut self, names: &[Text]) -> Result<(), AllocError>
        requires { AreNoted self.old names.now }
        ensures { AreNoted self.new names.now }
    {
        while self.count < names.len() {
            let place = self.count;
            let name = &names[place];
            note(&mut self.places, name, place)?;
            self.count = place + 1;
        }
        Ok(())
    }
}
