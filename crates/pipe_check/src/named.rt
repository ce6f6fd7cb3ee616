//! Names: the first of some things that has a name, and the first name that stands twice.

ghost use Rattle.std.specs.Prelude.{◌≡◌, ℕ, List, map, IfOk};
ghost use Rattle.std.specs.Option.{option_copied};
ghost use Rattle.pipe_schema.specs.Schema.{first_repeated};
ghost use Rattle.pipe_check.specs.Named.{first_named};

use pipe_expr::{NamedExpr, RenamePair};
use pipe_schema::Text;
use std::alloc::{AllocError, Global};
use std::collections::BTreeMap;
use std::marker::Model;

/// What has a name.
pub trait Named {
    /// The name.
    ghost name: { Self → List ℕ };

    /// The name.
    fn name(&self) -> &Text
        ensures { result.now ≡ name self.now };
}

impl Named for NamedExpr {
    ghost name = { λ e. e.name };

    fn name(&self) -> &Text {
        &self.name
    }
}

impl Named for RenamePair {
    ghost use Rattle.pipe_plan.specs.Faults.{existing_of};

    ghost name = { existing_of };

    fn name(&self) -> &Text {
        &self.existing
    }
}

impl Named for Text {
    ghost name = { λ text. text };

    fn name(&self) -> &Text {
        self
    }
}

/// Some things, found by their names: by an ordered map, which no choice of names makes slow.
#[derive(Drop)]
pub struct NameIndex<'a, N: Named> {
    items: &'a [N],
    first: BTreeMap<&'a str, &'a N>,
    repeated: Option<&'a Text>,
}

impl<'a, N: Named> Model for NameIndex<'a, N> {
    ghost use Rattle.std.specs.Prelude.{◌≡◌, ℕ, List, map, option_map};
    ghost use Rattle.std.specs.BTreeMap.{get_by};
    ghost use Rattle.std.specs.Cmp.Lexicographic.{slice_cmp};
    ghost use Rattle.std.specs.Option.{option_copied};
    ghost use Rattle.std.specs.Ordering.{nat_cmp};
    ghost use Rattle.pipe_schema.specs.Schema.{first_repeated};
    ghost use Rattle.pipe_check.specs.Named.{first_named};

    ghost Value = { List N };

    ghost view = { λ index. index.items.now };

    ghost invariant = { λ index. ((q : List ℕ) → option_copied (get_by (λ k. slice_cmp nat_cmp q k.now) index.first) ≡ first_named N.name index.items.now q) × (option_copied index.repeated ≡ first_repeated (map N.name index.items.now)) };
}

impl<'a, N: Named> NameIndex<'a, N> {
    /// An index of these things.
    pub fn of(alloc: Global, items: &'a [N]) -> Result<NameIndex<'a, N>, AllocError>
        ensures { IfOk result (λ index. index ≡ items.now) }
    {
        let mut first = BTreeMap::new(alloc);
        let mut repeated = None;
        let mut i = items.len();
        while i > 0 {
            i -= 1;
            let item = &items[i];
            let name = item.name();
            if first.insert(name.as_str(), item)?.is_some() {
                repeated = Some(name);
            }
        }
        Ok(NameIndex {
            items,
            first,
            repeated,
        })
    }

    /// The first thing of a name.
    pub fn first(&self, name: &Text) -> Option<&'a N>
        ensures { option_copied result ≡ first_named N.name self.now name.now }
    {
        self.first.get(name.as_str()).copied()
    }

    /// The first name that stands again further on.
    pub fn repeated(&self) -> Option<&'a Text>
        ensures { option_copied result ≡ first_repeated (map N.name self.now) }
    {
        self.repeated
    }
}
