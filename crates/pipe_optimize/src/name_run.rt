//! Names to which more are put, and which are found by where each stands first.

ghost use Rattle.std.specs.Prelude.{◌≡◌, ◌∷◌, ◌++◌, [], length, take, OnOk, OnErr};
ghost use Rattle.pipe_schema.specs.Schema.{has_name};

use crate::first_places::FirstPlaces;
use crate::names::{first_names, is_among};
use pipe_schema::{List, Text};
use std::alloc::{AllocError, Global};
use std::marker::Model;

/// Names, seen as the list of them. Those whose first places are noted are found by a map, the others one by one.
#[derive(Drop)]
pub(crate) struct NameRun {
    names: Vec<Text>,
    index: FirstPlaces,
}

impl Model for NameRun {
    ghost use Rattle.std.specs.Prelude.{ℕ, List};
    ghost use Rattle.pipe_optimize.specs.Noted.{AreNoted};

    ghost Value = { List (List ℕ) };

    ghost view = { λ r. r.names.items };

    ghost invariant = { λ r. AreNoted r.index r.names.items };
}

impl NameRun {
    /// These names, of which none is noted.
    pub(crate) fn of(alloc: Global, names: List<Text>) -> NameRun
        ensures { result ≡ names }
    {
        NameRun {
            names: names.into_vec(),
            index: FirstPlaces::new(alloc),
        }
    }

    /// The names.
    pub(crate) fn as_slice(&self) -> &[Text]
        ensures { result.now ≡ self.now }
    {
        self.names.as_slice()
    }

    /// How many names there are.
    pub(crate) fn len(&self) -> usize
        ensures { result ≡ length self.now }
    {
        self.names.len()
    }

    /// Puts a name behind the others.
    pub(crate) fn push(&mut self, name: Text) -> Result<(), AllocError>
        ensures ok { OnOk result (self.new ≡ self.old ++ name ∷ []) }
        ensures err { OnErr result (self.new ≡ self.old) }
    {
        self.names.push(name)?;
        Ok(())
    }

    /// Notes where each name stands first.
    pub(crate) fn note(&mut self) -> Result<(), AllocError>
        ensures { self.new ≡ self.old }
    {
        self.index.note_all(self.names.as_slice())
    }

    /// Whether a name stands among the first so many.
    pub(crate) fn has(&self, len: usize, name: &Text) -> bool
        ensures { result ≡ has_name (take len self.now) name.now }
    {
        let noted = self.index.count;
        if len <= noted {
            self.index.is_below(len, name)
        } else {
            is_among(first_names(self.names.as_slice(), len), name)
        }
    }
}
