//! One column of nullable values of one type: a typed vector with its validity beside it.

ghost use Rattle.std.specs.Prelude.{◌≡◌, ℕ, ◌<◌, ◌≤◌, ◌+◌, [], ◌∷◌, ◌++◌, length, IfOk, OnOk, OnErr, IfSome, Some, None, map, take, drop, IsTrue};
ghost use Rattle.std.specs.Option.{option_copied};
ghost use Rattle.pipe_schema.specs.Cell.{fits_dtype};
ghost use Rattle.pipe_column.specs.Column.{nullable, nullable_at, nullables_in, nullables};
ghost use Rattle.pipe_column.specs.Validity.{validities};

use crate::buffer::Buffer;
use crate::native::Native;
use crate::place::{Place, gather};
use crate::validities::Validities;
use crate::validity::Validity;
use pipe_schema::AnyValue;
use std::alloc::{AllocError, Global};
use std::marker::Model;

/// A column, seen as a list of nullable values; where none is missing it takes no memory for what is there.
#[derive(Debug, Drop)]
pub struct Column<T> {
    validity: Validity,
    values: Buffer<T>,
}

impl<T> Model for Column<T> {
    ghost use Rattle.std.specs.Prelude.{◌≡◌, List, Option, length};
    ghost use Rattle.pipe_column.specs.Column.{nullables};

    ghost Value = { List (Option T) };

    ghost view = { λ c. nullables c.validity c.values };

    ghost invariant = { λ c. length c.validity ≡ length c.values };
}

#[tactic(auto, using(crate::proofs::Nullables::nullable_rules))]
impl<T> Column<T> {
    /// A column with no place, which takes no memory.
    pub fn new(alloc: Global) -> Column<T>
        ensures { result ≡ [] }
    {
        Column {
            validity: Validity::new(alloc),
            values: Buffer::new(alloc),
        }
    }

    /// A column with no place, and room for so many.
    pub fn with_capacity(alloc: Global, places: usize) -> Result<Column<T>, AllocError>
        ensures { IfOk result (λ made. made ≡ []) }
    {
        Ok(Column {
            validity: Validity::new(alloc),
            values: Buffer::from_vec(Vec::with_capacity(alloc, places)?),
        })
    }

    /// A column of these values, each missing where its validity is false.
    pub fn from_parts(validity: Vec<bool>, values: Vec<T>) -> Column<T>
        requires { length validity.items ≡ length values.items }
        ensures { result ≡ nullables validity.items values.items }
    {
        Column {
            validity: Validity::from_vec(validity),
            values: Buffer::from_vec(values),
        }
    }

    /// For each value whether it is there, and the values, with any where one is missing: for loops over a whole
    /// column.
    pub fn parts(&self) -> (Validities<'_>, &[T])
        ensures even { length (validities result.0) ≡ length result.1.now }
        ensures nullables { nullables (validities result.0) result.1.now ≡ self.now }
    {
        (self.validity.lent(), self.values.as_slice())
    }

    /// The values, where none is known to be missing: for loops that read no validity.
    pub fn values_without_nulls(&self) -> Option<&[T]>
        ensures { IfSome result (λ values. map Some values.now ≡ self.now) }
    {
        match self.validity.lent() {
            Validities::All(_) => Some(self.values.as_slice()),
            Validities::Each(_) => None,
        }
    }

    /// How many places there are.
    pub fn len(&self) -> usize
        ensures { result ≡ length self.now }
    {
        self.values.len()
    }

    /// The allocator of the column.
    pub(crate) fn allocator(&self) -> Global {
        self.values.allocator()
    }

    /// Whether the value at a place is there, and the value.
    fn nullable(&self, i: usize) -> (bool, &T)
        requires { i < length self.now }
        ensures { nullable_at self.now i ≡ nullable result.0 result.1.now }
    {
        (self.validity.at(i), &self.values.as_slice()[i])
    }

    /// The value at a place, or none where it is missing.
    pub fn get(&self, i: usize) -> Option<&T>
        requires { i < length self.now }
        ensures { option_copied result ≡ nullable_at self.now i }
    {
        let (valid, value) = self.nullable(i);
        if valid { Some(value) } else { None }
    }
}

#[tactic(auto, using(crate::proofs::Nullables::nullable_rules))]
impl<T: Drop> Column<T> {
    /// Lets copies and parts of the column share its memory from now on.
    pub(crate) fn share(&mut self) -> Result<(), AllocError>
        ensures { self.new ≡ self.old }
    {
        self.validity.share()?;
        self.values.share()
    }
}

#[tactic(auto, using(crate::proofs::Nullables::nullable_rules))]
impl<T: Copy + Drop> Column<T> {
    /// Puts a value at the end, which is missing where it isn't valid.
    fn put(&mut self, valid: bool, x: T) -> Result<(), AllocError>
        ensures ok { OnOk result (self.new ≡ self.old ++ nullable valid x ∷ []) }
        ensures err { OnErr result (self.new ≡ self.old) }
    {
        self.validity.push(valid)?;
        if let Err(error) = self.values.push(x) {
            self.validity.truncate(self.values.len());
            return Err(error);
        }
        Ok(())
    }

    /// Puts a nullable value at the end, with a filler for its place where there is none.
    pub fn push_option(&mut self, x: Option<T>, filler: T) -> Result<(), AllocError>
        ensures ok { OnOk result (self.new ≡ self.old ++ x ∷ []) }
        ensures err { OnErr result (self.new ≡ self.old) }
    {
        match x {
            Some(x) => self.put(true, x),
            None => self.put(false, filler),
        }
    }

    /// Puts a value at the end.
    pub fn push(&mut self, x: T) -> Result<(), AllocError>
        ensures ok { OnOk result (self.new ≡ self.old ++ Some x ∷ []) }
        ensures err { OnErr result (self.new ≡ self.old) }
    {
        self.put(true, x)
    }

    /// Puts a missing value at the end, with a filler for its place.
    pub fn push_null(&mut self, filler: T) -> Result<(), AllocError>
        ensures ok { OnOk result (self.new ≡ self.old ++ None ∷ []) }
        ensures err { OnErr result (self.new ≡ self.old) }
    {
        self.put(false, filler)
    }

    /// The value at a place, or none where it is missing.
    pub fn at(&self, i: usize) -> Option<T>
        requires { i < length self.now }
        ensures { result ≡ nullable_at self.now i }
    {
        let (valid, value) = self.nullable(i);
        if valid { Some(*value) } else { None }
    }

    /// The validity and the values, for a loop that writes over the column: copied where others share them.
    pub fn into_parts(self) -> Result<(Vec<bool>, Vec<T>), AllocError>
        ensures even { IfOk result (λ parts. length parts.0.items ≡ length parts.1.items) }
        ensures nullables { IfOk result (λ parts. nullables parts.0.items parts.1.items ≡ self) }
    {
        let Column { validity, values } = self;
        Ok((validity.into_vec()?, values.into_vec()?))
    }

    /// The values at these places.
    pub(crate) fn take_at<P: Place>(
        &self,
        alloc: Global,
        places: &[P],
        filler: T,
    ) -> Result<Column<T>, AllocError>
        ensures { IfOk result (λ taken. taken ≡ nullables_in self.now (map P.place places.now)) }
    {
        Ok(Column {
            validity: self.validity.take_at(alloc, places)?,
            values: Buffer::from_vec(gather(alloc, self.values.as_slice(), places, filler)?),
        })
    }

    /// So many places from a place on.
    pub(crate) fn slice(&self, from: usize, count: usize) -> Result<Column<T>, AllocError>
        requires { from + count ≤ length self.now }
        ensures { IfOk result (λ part. part ≡ take count (drop from self.now)) }
    {
        Ok(Column {
            validity: self.validity.slice(from, count)?,
            values: self.values.slice(from, count)?,
        })
    }

    /// Puts the places of another column at the end.
    pub(crate) fn append(&mut self, other: &Column<T>) -> Result<(), AllocError>
        ensures ok { OnOk result (self.new ≡ self.old ++ other.now) }
        ensures err { OnErr result (self.new ≡ self.old) }
    {
        self.validity.append(&other.validity)?;
        if let Err(error) = self.values.append(other.values.as_slice()) {
            self.validity.truncate(self.values.len());
            return Err(error);
        }
        Ok(())
    }

    /// Keeps so many places, from the front.
    pub(crate) fn truncate(&mut self, count: usize)
        ensures { self.new ≡ take count self.old }
    {
        self.validity.truncate(count);
        self.values.truncate(count);
    }

    /// A copy.
    pub(crate) fn copied(&self) -> Result<Column<T>, AllocError>
        ensures { IfOk result (λ copy. copy ≡ self.now) }
    {
        Ok(Column {
            validity: self.validity.copied()?,
            values: self.values.copied()?,
        })
    }
}

impl<T: Native> Column<T> {
    /// The cell at a place.
    pub(crate) fn cell(&self, i: usize) -> AnyValue
        requires { i < length self.now }
        ensures { result ≡ T.cell (nullable_at self.now i) }
    {
        T::any_value(self.at(i))
    }

    /// Puts a cell of the type at the end.
    pub(crate) fn push_cell(&mut self, cell: &AnyValue) -> Result<(), AllocError>
        requires { IsTrue (fits_dtype T.dtype_of cell.now) }
        ensures ok { OnOk result (map T.cell self.new ≡ map T.cell self.old ++ cell.now ∷ []) }
        ensures err { OnErr result (self.new ≡ self.old) }
    {
        let (valid, value) = T::value(cell);
        self.put(valid, value)
    }
}
