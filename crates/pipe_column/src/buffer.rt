//! Values in a vector of one owner, or in a part of a vector that several owners share.

ghost use Rattle.std.specs.Prelude.{◌≡◌, ◌≤◌, ◌+◌, ◌++◌, [], ◌∷◌, length, take, drop, replicate, IfOk, OnOk, OnErr};

use crate::part::Part;
use std::alloc::{AllocError, Global};
use std::marker::Model;
use std::mem::replace;
use std::sync::Arc;

/// Where values stand.
#[derive(Debug, Drop)]
pub(crate) enum Held<T> {
    Own(Vec<T>),
    Shared(Part<T>),
}

/// Values in a vector of their own, or in a part of one that is shared and copied before a change; seen as a list.
#[derive(Debug, Drop)]
pub(crate) struct Buffer<T> {
    held: Held<T>,
}

impl<T> Model for Buffer<T> {
    ghost use Rattle.std.specs.Prelude.{List};
    ghost use Rattle.pipe_column.specs.Buffer.{held_values};

    ghost Value = { List T };

    ghost view = { λ b. held_values b.held };
}

impl<T> Buffer<T> {
    /// A buffer without values, which takes no memory.
    pub(crate) fn new(alloc: Global) -> Buffer<T>
        ensures { result ≡ [] }
    {
        Buffer::from_vec(Vec::new(alloc))
    }

    /// The values of a vector.
    pub(crate) fn from_vec(values: Vec<T>) -> Buffer<T>
        ensures { result ≡ values.items }
    {
        Buffer {
            held: Held::Own(values),
        }
    }

    /// The values.
    pub(crate) fn as_slice(&self) -> &[T]
        ensures { result.now ≡ self.now }
    {
        match &self.held {
            Held::Own(values) => values.as_slice(),
            Held::Shared(part) => part.as_slice(),
        }
    }

    /// How many values there are.
    pub(crate) fn len(&self) -> usize
        ensures { result ≡ length self.now }
    {
        match &self.held {
            Held::Own(values) => values.len(),
            Held::Shared(part) => part.len(),
        }
    }

    /// The allocator of the values.
    pub(crate) fn allocator(&self) -> Global {
        match &self.held {
            Held::Own(values) => *values.allocator(),
            Held::Shared(part) => part.allocator(),
        }
    }
}

impl<T: Drop> Buffer<T> {
    /// Lets copies and parts of the buffer share its vector from now on.
    pub(crate) fn share(&mut self) -> Result<(), AllocError>
        ensures { self.new ≡ self.old }
    {
        let alloc = self.allocator();
        let values = match &mut self.held {
            Held::Own(values) => replace(values, Vec::new(alloc)),
            Held::Shared(_) => return Ok(()),
        };
        match Arc::new(alloc, values) {
            Ok(all) => {
                self.held = Held::Shared(Part::whole(all));
                Ok(())
            }
            Err(refused) => {
                self.held = Held::Own(refused.value);
                Err(AllocError)
            }
        }
    }

    /// Keeps so many values, from the front.
    pub(crate) fn truncate(&mut self, count: usize)
        ensures { self.new ≡ take count self.old }
    {
        match &mut self.held {
            Held::Own(values) => values.truncate(count),
            Held::Shared(part) => part.truncate(count),
        }
    }
}

/// Puts a value at the end of a vector, so many times.
#[tactic(auto, using(crate::proofs::AllThere::copies_behind))]
fn push_copies<T: Copy + Drop>(
    values: &mut Vec<T>,
    value: T,
    count: usize,
) -> Result<(), AllocError>
    ensures ok { OnOk result (values.new.items ≡ values.old.items ++ replicate count value) }
    ensures err { OnErr result (values.new.items ≡ values.old.items) }
{
    let Some(len) = values.len().checked_add(count) else {
        return Err(AllocError);
    };
    Ok(values.resize(len, value)?)
}

impl<T: Copy + Drop> Buffer<T> {
    /// A vector of the values, with room for so many more.
    fn copied_with_room(&self, more: usize) -> Result<Vec<T>, AllocError>
        ensures { IfOk result (λ made. made.items ≡ self.now) }
    {
        let mut made = Vec::new(self.allocator());
        made.reserve(self.len().saturating_add(more))?;
        made.extend_from_slice(self.as_slice())?;
        Ok(made)
    }

    /// The values as a vector: copied where others share them.
    pub(crate) fn into_vec(self) -> Result<Vec<T>, AllocError>
        ensures { IfOk result (λ values. values.items ≡ self) }
    {
        let Buffer { held } = self;
        match held {
            Held::Own(values) => Ok(values),
            Held::Shared(part) => Ok(Vec::from_slice(part.allocator(), part.as_slice())?),
        }
    }

    /// Puts a value at the end.
    pub(crate) fn push(&mut self, value: T) -> Result<(), AllocError>
        ensures ok { OnOk result (self.new ≡ self.old ++ value ∷ []) }
        ensures err { OnErr result (self.new ≡ self.old) }
    {
        if let Held::Own(values) = &mut self.held {
            return Ok(values.push(value)?);
        }
        let mut values = self.copied_with_room(1)?;
        values.push(value)?;
        self.held = Held::Own(values);
        Ok(())
    }

    /// Puts further values at the end.
    pub(crate) fn append(&mut self, further: &[T]) -> Result<(), AllocError>
        ensures ok { OnOk result (self.new ≡ self.old ++ further.now) }
        ensures err { OnErr result (self.new ≡ self.old) }
    {
        if let Held::Own(values) = &mut self.held {
            return Ok(values.extend_from_slice(further)?);
        }
        let mut values = self.copied_with_room(further.len())?;
        values.extend_from_slice(further)?;
        self.held = Held::Own(values);
        Ok(())
    }

    /// Puts a value at the end, so many times.
    pub(crate) fn append_copies(&mut self, value: T, count: usize) -> Result<(), AllocError>
        ensures ok { OnOk result (self.new ≡ self.old ++ replicate count value) }
        ensures err { OnErr result (self.new ≡ self.old) }
    {
        if let Held::Own(values) = &mut self.held {
            return push_copies(values, value, count);
        }
        let mut values = self.copied_with_room(count)?;
        push_copies(&mut values, value, count)?;
        self.held = Held::Own(values);
        Ok(())
    }

    /// So many values from a place on: without a copy where the values are shared.
    pub(crate) fn slice(&self, from: usize, count: usize) -> Result<Buffer<T>, AllocError>
        requires { from + count ≤ length self.now }
        ensures { IfOk result (λ part. part ≡ take count (drop from self.now)) }
    {
        let held = match &self.held {
            Held::Own(values) => {
                let alloc = *values.allocator();
                Held::Own(Vec::from_slice(alloc, &values[from..from + count])?)
            }
            Held::Shared(part) => Held::Shared(part.slice(from, count)?),
        };
        Ok(Buffer { held })
    }

    /// A copy: without copying the values where they are shared.
    pub(crate) fn copied(&self) -> Result<Buffer<T>, AllocError>
        ensures { IfOk result (λ copy. copy ≡ self.now) }
    {
        self.slice(0, self.len())
    }
}
