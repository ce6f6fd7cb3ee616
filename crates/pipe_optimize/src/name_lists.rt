//! Lists of names, one a node, of which one that begins with all of another lies in one run with it.

ghost use Rattle.std.specs.Prelude.{◌≡◌, ◌<◌, ◌∷◌, ◌++◌, [], length, IfSome, OnOk};
ghost use Rattle.pipe_schema.specs.Schema.{has_name};
ghost use Rattle.pipe_optimize.specs.Lists.{names_at as kept_names_at};
ghost use Rattle.pipe_optimize.specs.Runs.{names_in, lists_in, AreWithin, HasGrown, IsWhole};

use crate::name_run::NameRun;
use crate::names::{copied, first_names};
use pipe_schema::{List, Text};
use std::alloc::{AllocError, Global};
use std::marker::Model;

/// Where the names of a node stand: the first so many of a run.
#[derive(Clone, Copy)]
pub(crate) struct Place {
    pub(crate) run: usize,
    pub(crate) len: usize,
}

/// Lists of names, one a node. Names that are put behind the last list of a run lengthen the run, so that the names of a
/// chain of joins stand in memory once.
#[derive(Drop)]
pub(crate) struct NameLists {
    runs: Vec<NameRun>,
    places: Vec<Place>,
}

impl Model for NameLists {
    ghost use Rattle.std.specs.Prelude.{ℕ, List};
    ghost use Rattle.pipe_optimize.specs.Runs.{lists_in, AreWithin};

    ghost Value = { List (List (List ℕ)) };

    ghost view = { λ l. lists_in l.runs.items l.places.items };

    ghost invariant = { λ l. AreWithin l.runs.items l.places.items };
}

/// The names of a run, none where there is none.
fn names_of_run(runs: &[NameRun], run: usize) -> &[Text]
    ensures { result.now ≡ kept_names_at runs.now run }
{
    match runs.get(run) {
        Some(names) => names.as_slice(),
        None => &[],
    }
}

/// The names that stand where a place tells.
fn names_of_place(runs: &[NameRun], place: Place) -> &[Text]
    ensures { result.now ≡ names_in runs.now place }
{
    let names = names_of_run(runs, place.run);
    first_names(names, place.len)
}

/// The names of a list, none where there is none.
#[tactic(auto, using(crate::proofs::Runs::list_rules))]
fn names_of_list<'a>(runs: &'a [NameRun], places: &[Place], list: usize) -> &'a [Text]
    ensures { result.now ≡ kept_names_at (lists_in runs.now places.now) list }
{
    if list >= places.len() {
        return &[];
    }
    names_of_place(runs, places[list])
}

/// The run that a list takes as a whole, if it takes one.
fn whole_run(runs: &[NameRun], places: &[Place], list: usize) -> Option<usize>
    ensures { IfSome result (λ run. IsWhole runs.now places.now list run) }
{
    if list >= places.len() {
        return None;
    }
    let Place { run, len } = places[list];
    if run >= runs.len() {
        return None;
    }
    let names = names_of_run(runs, run);
    if names.len() != len {
        return None;
    }
    Some(run)
}

/// Puts further names behind some.
fn lengthen(names: &mut NameRun, more: List<Text>) -> Result<(), AllocError>
    ensures grown { HasGrown names.old names.new }
    ensures all { OnOk result (names.new ≡ names.old ++ more) }
{
    for name in more.into_vec() {
        names.push(name)?;
    }
    Ok(())
}

/// Puts a run behind the others, and a list that takes it as a whole.
fn push_run(
    runs: &mut Vec<NameRun>,
    places: &mut Vec<Place>,
    names: NameRun,
) -> Result<(), AllocError>
    requires { AreWithin runs.old.items places.old.items }
    ensures within { AreWithin runs.new.items places.new.items }
    ensures pushed { OnOk result (lists_in runs.new.items places.new.items
        ≡ lists_in runs.old.items places.old.items ++ names ∷ []) }
{
    let run = runs.len();
    let len = names.len();
    runs.push(names)?;
    places.push(Place { run, len })?;
    Ok(())
}

/// Puts a list behind the others: the names of a run, and behind them more, by which the run grows.
fn push_longer(
    runs: &mut Vec<NameRun>,
    places: &mut Vec<Place>,
    run: usize,
    more: List<Text>,
) -> Result<(), AllocError>
    requires there { run < length runs.old.items }
    requires within { AreWithin runs.old.items places.old.items }
    ensures within { AreWithin runs.new.items places.new.items }
    ensures pushed { OnOk result (lists_in runs.new.items places.new.items
        ≡ lists_in runs.old.items places.old.items
        ++ (kept_names_at runs.old.items run ++ more) ∷ []) }
{
    let names = &mut runs[run];
    lengthen(names, more)?;
    let len = names.len();
    places.push(Place { run, len })?;
    Ok(())
}

/// Puts a list behind the others: a copy of one of them, and more names behind these, as a run of its own.
fn push_copy(
    alloc: Global,
    runs: &mut Vec<NameRun>,
    places: &mut Vec<Place>,
    list: usize,
    more: List<Text>,
) -> Result<(), AllocError>
    requires { AreWithin runs.old.items places.old.items }
    ensures within { AreWithin runs.new.items places.new.items }
    ensures pushed { let old = lists_in runs.old.items places.old.items in
        OnOk result (lists_in runs.new.items places.new.items
        ≡ old ++ (kept_names_at old list ++ more) ∷ []) }
{
    let was = names_of_list(runs.as_slice(), places.as_slice(), list);
    let mut run = NameRun::of(alloc, copied(alloc, was)?);
    lengthen(&mut run, more)?;
    push_run(runs, places, run)?;
    Ok(())
}

/// Puts a list behind the others: the names of one of them, and more behind these. The names of a run as a whole aren't
/// copied.
fn push_after(
    alloc: Global,
    runs: &mut Vec<NameRun>,
    places: &mut Vec<Place>,
    list: usize,
    more: List<Text>,
) -> Result<(), AllocError>
    requires { AreWithin runs.old.items places.old.items }
    ensures within { AreWithin runs.new.items places.new.items }
    ensures pushed { let old = lists_in runs.old.items places.old.items in
        OnOk result (lists_in runs.new.items places.new.items
        ≡ old ++ (kept_names_at old list ++ more) ∷ []) }
{
    match whole_run(runs.as_slice(), places.as_slice(), list) {
        Some(run) => push_longer(runs, places, run, more),
        None => push_copy(alloc, runs, places, list, more),
    }
}

/// Whether a name stands among those of a list.
#[tactic(auto, using(crate::proofs::Runs::list_rules))]
fn has_in_list(runs: &[NameRun], places: &[Place], list: usize, name: &Text) -> bool
    ensures { result ≡ has_name (kept_names_at (lists_in runs.now places.now) list) name.now }
{
    if list >= places.len() {
        return false;
    }
    let Place { run, len } = places[list];
    if run >= runs.len() {
        return false;
    }
    runs[run].has(len, name)
}

/// Notes where each name of the run of a list stands first.
fn note_list(runs: &mut Vec<NameRun>, places: &[Place], list: usize) -> Result<(), AllocError>
    ensures { runs.new.items ≡ runs.old.items }
{
    if list >= places.len() {
        return Ok(());
    }
    let Place { run, len: _ } = places[list];
    if run >= runs.len() {
        return Ok(());
    }
    let names = &mut runs[run];
    names.note()?;
    Ok(())
}

impl NameLists {
    /// No lists.
    pub(crate) fn new(alloc: Global) -> NameLists
        ensures { result ≡ [] }
    {
        NameLists {
            runs: Vec::new(alloc),
            places: Vec::new(alloc),
        }
    }

    /// The list in a place, no names where there is none.
    pub(crate) fn names(&self, list: usize) -> &[Text]
        ensures { result.now ≡ kept_names_at self.now list }
    {
        names_of_list(self.runs.as_slice(), self.places.as_slice(), list)
    }

    /// Whether a name stands in the list in a place.
    pub(crate) fn has(&self, list: usize, name: &Text) -> bool
        ensures { result ≡ has_name (kept_names_at self.now list) name.now }
    {
        has_in_list(self.runs.as_slice(), self.places.as_slice(), list, name)
    }

    /// Notes the names of the list in a place, which are then found faster.
    pub(crate) fn note(&mut self, list: usize) -> Result<(), AllocError>
        ensures { self.new ≡ self.old }
    {
        note_list(&mut self.runs, self.places.as_slice(), list)
    }

    /// Puts a list behind the others, as a run of its own.
    pub(crate) fn push(&mut self, alloc: Global, names: List<Text>) -> Result<(), AllocError>
        ensures { OnOk result (self.new ≡ self.old ++ names ∷ []) }
    {
        push_run(&mut self.runs, &mut self.places, NameRun::of(alloc, names))
    }

    /// Puts a list behind the others: the names of one of them, and more behind these.
    pub(crate) fn push_behind(
        &mut self,
        alloc: Global,
        list: usize,
        more: List<Text>,
    ) -> Result<(), AllocError>
        ensures { OnOk result
            (self.new ≡ self.old ++ (kept_names_at self.old list ++ more) ∷ []) }
    {
        push_after(alloc, &mut self.runs, &mut self.places, list, more)
    }
}
