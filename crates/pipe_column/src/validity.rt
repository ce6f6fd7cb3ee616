//! For each value of a column whether it is there: kept only where one may be missing.

ghost use Rattle.std.specs.Prelude.{◌≡◌, ◌<◌, ◌≤◌, ◌+◌, [], ◌∷◌, ◌++◌, true, false, length, take, drop, map, replicate, slice_index_or, IfOk, OnOk, OnErr};
ghost use Rattle.pipe_column.specs.Column.{value_at, values_at};
ghost use Rattle.pipe_column.specs.Validity.{validities, all_true};

use crate::buffer::Buffer;
use crate::place::{Place, gather};
use crate::validities::Validities;
use std::alloc::{AllocError, Global};
use std::marker::Model;

/// What is kept: how many values there are, all of them there, or a mark for each.
#[derive(Debug, Drop)]
pub(crate) enum Marks {
    All(Global, usize),
    Each(Buffer<bool>),
}

/// For each value of a column whether it is there, seen as a list; it takes no memory while all are there.
#[derive(Debug, Drop)]
pub(crate) struct Validity {
    marks: Marks,
}

impl Model for Validity {
    ghost use Rattle.std.specs.Prelude.{List, Bool};
    ghost use Rattle.pipe_column.specs.Validity.{marks_of};

    ghost Value = { List Bool };

    ghost view = { λ v. marks_of v.marks };
}

/// Whether all marks are true: each is looked at, with no branch, so that many are at once.
#[tactic(auto, using(crate::proofs::AllThere::there_rules))]
fn are_true(marks: &[bool]) -> bool
    ensures { result ≡ all_true marks.now }
{
    let mut all = true;
    for mark in marks {
        all &= *mark;
    }
    all
}

/// Whether a place is one of the first so many.
#[tactic(auto, using(crate::proofs::AllThere::there_rules))]
fn is_within(place: Option<usize>, count: usize) -> bool
    ensures { result ≡ value_at (replicate count true) false place }
{
    match place {
        Some(i) => i < count,
        None => false,
    }
}

/// Whether all places are among the first so many.
#[tactic(auto, using(crate::proofs::AllThere::there_rules))]
fn are_within<P: Place>(places: &[P], count: usize) -> bool
    ensures { result ≡ all_true (values_at (replicate count true) false (map P.place places.now)) }
{
    let mut all = true;
    for place in places {
        all &= is_within(place.place(), count);
    }
    all
}

/// For each place whether it is one of the first so many.
fn places_within<P: Place>(
    alloc: Global,
    places: &[P],
    count: usize,
) -> Result<Vec<bool>, AllocError>
    ensures { IfOk result
        (λ v. v.items ≡ values_at (replicate count true) false (map P.place places.now)) }
{
    let mut made = Vec::with_capacity(alloc, places.len())?;
    for place in places {
        made.push_reserved(is_within(place.place(), count));
    }
    Ok(made)
}

/// So many marks that are true, and room for more.
fn written(alloc: Global, count: usize, more: usize) -> Result<Vec<bool>, AllocError>
    ensures { IfOk result (λ made. made.items ≡ replicate count true) }
{
    let mut made = Vec::new(alloc);
    made.reserve(count.saturating_add(more))?;
    made.resize(count, true)?;
    Ok(made)
}

#[tactic(auto, using(crate::proofs::AllThere::there_rules))]
impl Validity {
    /// No value.
    pub(crate) fn new(alloc: Global) -> Validity
        ensures { result ≡ [] }
    {
        Validity::all(alloc, 0)
    }

    /// So many values, all of them there.
    fn all(alloc: Global, count: usize) -> Validity
        ensures { result ≡ replicate count true }
    {
        Validity {
            marks: Marks::All(alloc, count),
        }
    }

    /// The values with these marks, which are kept.
    fn each(marks: Vec<bool>) -> Validity
        ensures { result ≡ marks.items }
    {
        Validity {
            marks: Marks::Each(Buffer::from_vec(marks)),
        }
    }

    /// The values with these marks, which aren't kept where all are true.
    pub(crate) fn from_vec(marks: Vec<bool>) -> Validity
        ensures { result ≡ marks.items }
    {
        if are_true(marks.as_slice()) {
            return Validity::all(*marks.allocator(), marks.len());
        }
        Validity::each(marks)
    }

    /// For each value whether it is there.
    pub(crate) fn lent(&self) -> Validities<'_>
        ensures { validities result ≡ self.now }
    {
        match &self.marks {
            Marks::All(_, count) => Validities::All(*count),
            Marks::Each(marks) => Validities::Each(marks.as_slice()),
        }
    }

    /// Whether the value at a place is there.
    pub(crate) fn at(&self, i: usize) -> bool
        requires { i < length self.now }
        ensures { result ≡ slice_index_or self.now i false }
    {
        match &self.marks {
            Marks::All(_, _) => true,
            Marks::Each(marks) => marks.as_slice()[i],
        }
    }

    /// Lets copies and parts share the marks from now on.
    pub(crate) fn share(&mut self) -> Result<(), AllocError>
        ensures { self.new ≡ self.old }
    {
        match &mut self.marks {
            Marks::All(_, _) => Ok(()),
            Marks::Each(marks) => marks.share(),
        }
    }

    /// Keeps so many values, from the front.
    pub(crate) fn truncate(&mut self, count: usize)
        ensures { self.new ≡ take count self.old }
    {
        match &mut self.marks {
            Marks::All(_, all) => *all = (*all).min(count),
            Marks::Each(marks) => marks.truncate(count),
        }
    }

    /// A vector of the marks: copied where others share them.
    pub(crate) fn into_vec(self) -> Result<Vec<bool>, AllocError>
        ensures { IfOk result (λ marks. marks.items ≡ self) }
    {
        let Validity { marks } = self;
        match marks {
            Marks::All(alloc, count) => written(alloc, count, 0),
            Marks::Each(marks) => marks.into_vec(),
        }
    }

    /// Puts a value at the end, which is there or not.
    pub(crate) fn push(&mut self, valid: bool) -> Result<(), AllocError>
        ensures ok { OnOk result (self.new ≡ self.old ++ valid ∷ []) }
        ensures err { OnErr result (self.new ≡ self.old) }
    {
        if let Marks::Each(marks) = &mut self.marks {
            return marks.push(valid);
        }
        if valid {
            return self.push_there(1);
        }
        self.push_marks(&[false])
    }

    /// Puts so many values at the end that are there.
    fn push_there(&mut self, count: usize) -> Result<(), AllocError>
        ensures ok { OnOk result (self.new ≡ self.old ++ replicate count true) }
        ensures err { OnErr result (self.new ≡ self.old) }
    {
        let (alloc, all) = match &mut self.marks {
            Marks::All(alloc, all) => (*alloc, *all),
            Marks::Each(marks) => return marks.append_copies(true, count),
        };
        let Some(all) = all.checked_add(count) else {
            return Err(AllocError);
        };
        self.marks = Marks::All(alloc, all);
        Ok(())
    }

    /// Puts values with these marks at the end, which are kept from now on.
    fn push_marks(&mut self, further: &[bool]) -> Result<(), AllocError>
        ensures ok { OnOk result (self.new ≡ self.old ++ further.now) }
        ensures err { OnErr result (self.new ≡ self.old) }
    {
        let (alloc, all) = match &mut self.marks {
            Marks::All(alloc, all) => (*alloc, *all),
            Marks::Each(marks) => return marks.append(further),
        };
        let mut marks = written(alloc, all, further.len())?;
        marks.extend_from_slice(further)?;
        self.marks = Marks::Each(Buffer::from_vec(marks));
        Ok(())
    }

    /// Puts the values of another at the end.
    pub(crate) fn append(&mut self, other: &Validity) -> Result<(), AllocError>
        ensures ok { OnOk result (self.new ≡ self.old ++ other.now) }
        ensures err { OnErr result (self.new ≡ self.old) }
    {
        match other.lent() {
            Validities::All(count) => self.push_there(count),
            Validities::Each(marks) => self.push_marks(marks),
        }
    }

    /// So many values from a place on: without a copy where the marks are shared.
    pub(crate) fn slice(&self, from: usize, count: usize) -> Result<Validity, AllocError>
        requires { from + count ≤ length self.now }
        ensures { IfOk result (λ part. part ≡ take count (drop from self.now)) }
    {
        let marks = match &self.marks {
            Marks::All(alloc, _) => Marks::All(*alloc, count),
            Marks::Each(marks) => Marks::Each(marks.slice(from, count)?),
        };
        Ok(Validity { marks })
    }

    /// A copy: without copying the marks where they are shared.
    pub(crate) fn copied(&self) -> Result<Validity, AllocError>
        ensures { IfOk result (λ copy. copy ≡ self.now) }
    {
        let marks = match &self.marks {
            Marks::All(alloc, count) => Marks::All(*alloc, *count),
            Marks::Each(marks) => Marks::Each(marks.copied()?),
        };
        Ok(Validity { marks })
    }

    /// The values at these places, missing where there is none.
    pub(crate) fn take_at<P: Place>(
        &self,
        alloc: Global,
        places: &[P],
    ) -> Result<Validity, AllocError>
        ensures { IfOk result
            (λ taken. taken ≡ values_at self.now false (map P.place places.now)) }
    {
        match self.lent() {
            Validities::All(count) => Ok(taken_of_all(alloc, places, count)?),
            Validities::Each(marks) => {
                Ok(Validity::from_vec(gather(alloc, marks, places, false)?))
            }
        }
    }
}

/// Of so many values that are all there, those at these places: where each of the places is one of theirs, nothing is
/// written.
#[tactic(auto, using(crate::proofs::AllThere::there_rules))]
fn taken_of_all<P: Place>(alloc: Global, places: &[P], count: usize) -> Result<Validity, AllocError>
    ensures { IfOk result
        (λ taken. taken ≡ values_at (replicate count true) false (map P.place places.now)) }
{
    if are_within(places, count) {
        return Ok(Validity::all(alloc, places.len()));
    }
    Ok(Validity::each(places_within(alloc, places, count)?))
}
