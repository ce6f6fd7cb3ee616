//! Frames: columns of one height, each name once.

ghost use Rattle.std.specs.Prelude.{◌≡◌, ℕ, ◌<◌, ◌≤◌, ◌+◌, ◌⊎◌, [], ◌++◌, length, All, map, take, drop, IfOk, IfErr, OnOk, OnErr, Some, None, slice_get, ◌^◌};
ghost use Rattle.pipe_schema.specs.Schema.{MemoryOr, IsSchema};
ghost use Rattle.pipe_column.specs.Columns.{column_rows, even_rows, field_of, height_of, AllOfHeight};
ghost use Rattle.pipe_frame.specs.Frame.{columns_of, frame_fault, table_of, IsRowOrNone, with_rows, chosen, taken, filtered, sliced, stacked, selected, select_fault};
ghost use Rattle.pipe_schema.specs.Rows.{HasWidth};
ghost use Rattle.pipe_frame.specs.Sizes.{frame_size};

use crate::columns::{
    append_columns, differing_height, empty_columns, fields_of, first_height, places_of_true,
    row_of, select_columns, share_columns, size_of_columns, slice_columns, take_columns,
};
use pipe_column::{Place, Series};
use pipe_schema::{
    AnyValue, DataType, FrameError, List, Schema, Text, TryClone, check_names, copy_items,
};
use std::alloc::{AllocError, Global};
use std::marker::Model;

/// A row.
pub type Row = List<AnyValue>;

/// A frame, seen as its schema and its list of rows.
#[derive(Debug)]
pub struct DataFrame {
    schema: Schema,
    columns: Vec<Series>,
    height: usize,
}

impl Drop for DataFrame {
    fn drop(self) {
        let DataFrame {
            schema,
            columns,
            height: _,
        } = self;
        drop(schema);
        drop(columns);
    }
}

impl Model for DataFrame {
    ghost use Rattle.std.specs.Prelude.{◌≡◌, map};
    ghost use Rattle.pipe_schema.specs.Schema.{IsSchema};
    ghost use Rattle.pipe_column.specs.Columns.{field_of, AllOfHeight};
    ghost use Rattle.pipe_frame.specs.Frame.{Table, table_of};

    ghost Value = { Table };

    ghost view = { λ f. table_of f.columns.items f.height };

    ghost invariant = { λ f. (f.schema ≡ map field_of f.columns.items) × IsSchema f.schema × AllOfHeight f.height f.columns.items };
}

#[tactic(auto, using(crate::proofs::Tables::table_rules))]
impl DataFrame {
    /// The frame of these columns. `NoColumns` where there is none, `DuplicateName` with the first name that
    /// stands again further on, `Height` with the height of the first column and of the first that differs.
    pub fn new(alloc: Global, columns: Vec<Series>) -> Result<DataFrame, FrameError>
        ensures schema { IfOk result (λ frame. frame.schema ≡ map field_of columns.items) }
        ensures rows { IfOk result (λ frame. frame.rows ≡ even_rows columns.items) }
        ensures good { OnOk result (IsSchema (map field_of columns.items)) }
        ensures even { OnOk result (AllOfHeight (height_of columns.items) columns.items) }
        ensures err { IfErr result (MemoryOr (frame_fault columns.items)) }
    {
        let schema = Schema::new(fields_of(alloc, columns.as_slice())?)?;
        let height = first_height(columns.as_slice());
        match differing_height(columns.as_slice(), height) {
            Some(other) => Err(FrameError::Height {
                first: height,
                other,
            }),
            None => Ok(DataFrame {
                schema,
                columns,
                height,
            }),
        }
    }

    /// The frame of these columns, whose names and types are those of a schema. It takes no memory.
    pub fn from_columns(schema: Schema, columns: Vec<Series>) -> DataFrame
        requires fields { map field_of columns.items ≡ schema }
        requires even { AllOfHeight (height_of columns.items) columns.items }
        ensures { result ≡ table_of columns.items (height_of columns.items) }
    {
        let _ = schema.len();
        let height = first_height(columns.as_slice());
        DataFrame {
            schema,
            columns,
            height,
        }
    }

    /// The frame of these columns, which all have this height, and of their schema.
    pub(crate) fn of_height(schema: Schema, columns: Vec<Series>, height: usize) -> DataFrame
        requires fields { map field_of columns.items ≡ schema }
        requires even { AllOfHeight height columns.items }
        ensures { result ≡ table_of columns.items height }
    {
        let _ = schema.len();
        DataFrame {
            schema,
            columns,
            height,
        }
    }

    /// How many rows there are, each of which has a cell in each column.
    pub(crate) fn whole_height(&self) -> usize
        ensures height { result ≡ length self.now.rows }
        ensures whole { All (HasWidth (length self.now.schema)) self.now.rows }
    {
        self.height
    }

    /// How many rows there are.
    pub fn height(&self) -> usize
        ensures { result ≡ length self.now.rows }
    {
        self.height
    }

    /// How many columns there are.
    pub fn width(&self) -> usize
        ensures { result ≡ length self.now.schema }
    {
        self.columns.len()
    }

    /// The schema.
    pub fn schema(&self) -> &Schema
        ensures schema { result.now ≡ self.now.schema }
        ensures good { IsSchema self.now.schema }
    {
        &self.schema
    }

    /// The columns.
    pub fn get_columns(&self) -> &[Series]
        ensures columns { result.now ≡ columns_of self.now }
        ensures width { length result.now ≡ length self.now.schema }
        ensures rows { self.now.rows ≡ column_rows result.now (length self.now.rows) }
        ensures even { AllOfHeight (length self.now.rows) result.now }
    {
        self.columns.as_slice()
    }

    /// The columns, by value.
    pub(crate) fn into_columns(self) -> Vec<Series>
        ensures { result.items ≡ columns_of self }
    {
        let DataFrame {
            schema,
            columns,
            height: _,
        } = self;
        drop(schema);
        columns
    }

    /// The row at a place.
    pub fn row(&self, i: usize) -> Result<Row, AllocError>
        requires { i < length self.now.rows }
        ensures { IfOk result (λ row. slice_get self.now.rows i ≡ Some row) }
    {
        row_of(
            *self.columns.allocator(),
            self.columns.as_slice(),
            self.height,
            i,
        )
    }

    /// The rows at these places, and a row of nulls where there is none.
    fn taken<P: Place>(&self, alloc: Global, places: &[P]) -> Result<DataFrame, AllocError>
        requires { All (IsRowOrNone (length self.now.rows)) (map P.place places.now) }
        ensures { IfOk result (λ made. made ≡ taken self.now (map P.place places.now)) }
    {
        Ok(DataFrame {
            schema: self.schema.try_clone()?,
            columns: take_columns(alloc, self.columns.as_slice(), places)?,
            height: places.len(),
        })
    }

    /// The rows at these places.
    pub fn take(&self, rows: &[u32]) -> Result<DataFrame, AllocError>
        requires { All (λ i. i < length self.now.rows) rows.now }
        ensures { IfOk result (λ made. made ≡ chosen self.now rows.now) }
    {
        Ok(self.taken(*self.columns.allocator(), rows)?)
    }

    /// The rows at these places, and a row of nulls where there is none.
    pub fn take_opt(&self, rows: &[Option<u32>]) -> Result<DataFrame, AllocError>
        requires { All (IsRowOrNone (length self.now.rows)) rows.now }
        ensures { IfOk result (λ made. made ≡ taken self.now rows.now) }
    {
        Ok(self.taken(*self.columns.allocator(), rows)?)
    }

    /// The rows where a mask is true.
    pub fn filter(&self, mask: &Series) -> Result<DataFrame, AllocError>
        requires boolean { mask.now.dtype ≡ DataType.Boolean }
        requires even { length mask.now.cells ≡ length self.now.rows }
        ensures { IfOk result (λ kept. kept ≡ filtered mask.now.cells self.now) }
    {
        let alloc = *self.columns.allocator();
        let Some(mask) = mask.as_column::<bool>() else {
            unreachable!()
        };
        let places = places_of_true(alloc, mask)?;
        Ok(self.taken(alloc, places.as_slice())?)
    }

    /// So many rows from a place on.
    pub fn slice(&self, offset: usize, len: usize) -> Result<DataFrame, AllocError>
        requires { offset + len ≤ length self.now.rows }
        ensures { IfOk result (λ part. part ≡ sliced offset len self.now) }
    {
        let alloc = *self.columns.allocator();
        Ok(DataFrame {
            schema: self.schema.try_clone()?,
            columns: slice_columns(alloc, self.columns.as_slice(), self.height, offset, len)?,
            height: len,
        })
    }

    /// A frame of the same schema with no row.
    pub fn clear(&self) -> Result<DataFrame, AllocError>
        ensures { IfOk result (λ cleared. cleared ≡ with_rows self.now []) }
    {
        Ok(self.slice(0, 0)?)
    }

    /// A frame of this schema with no row.
    pub fn empty(alloc: Global, schema: &Schema) -> Result<DataFrame, AllocError>
        ensures { IfOk result (λ frame. frame ≡ record { schema = schema.now; rows = [] }) }
    {
        Ok(DataFrame {
            schema: schema.try_clone()?,
            columns: empty_columns(alloc, schema.fields())?,
            height: 0,
        })
    }

    /// Lets copies and parts of the frame share its memory from now on.
    fn share(&mut self) -> Result<(), AllocError>
        ensures { self.new ≡ self.old }
    {
        share_columns(self.columns.as_mut_slice())
    }

    /// The same frame, whose copies and parts share its memory instead of taking some for its cells. One that changes
    /// gets memory of its own first.
    pub fn shared(mut self) -> Result<DataFrame, AllocError>
        ensures { IfOk result (λ shared. shared ≡ self) }
    {
        self.share()?;
        Ok(self)
    }

    /// Puts the rows of a frame of the same schema behind these.
    pub fn vstack_mut(&mut self, other: &DataFrame) -> Result<(), AllocError>
        requires { self.old.schema ≡ other.now.schema }
        ensures ok { OnOk result (self.new ≡ stacked self.old other.now) }
        ensures err { OnErr result (self.new ≡ self.old) }
    {
        append_columns(
            self.columns.as_mut_slice(),
            other.columns.as_slice(),
            self.height,
        )?;
        self.height = first_height(self.columns.as_slice());
        Ok(())
    }
}

#[tactic(auto, using(crate::proofs::Tables::table_rules))]
impl DataFrame {
    /// The columns of these names, in the order of the names. `NoColumns` where there is no name, `DuplicateName`
    /// with the first name that stands again further on, `UnknownColumn` with the first that no column has.
    pub fn select(&self, names: &[Text]) -> Result<DataFrame, FrameError>
        ensures ok { IfOk result (λ frame. frame ≡ selected self.now names.now) }
        ensures good { OnOk result (select_fault self.now.schema names.now ≡ None) }
        ensures err { IfErr result (MemoryOr (select_fault self.now.schema names.now)) }
    {
        let alloc = *self.columns.allocator();
        check_names(alloc, names)?;
        let columns = select_columns(alloc, self.columns.as_slice(), &self.schema, names)?;
        let fields = fields_of(alloc, columns.as_slice())?;
        Ok(DataFrame {
            schema: Schema::of_checked(fields)?,
            columns,
            height: self.height,
        })
    }

    /// The size of the frame in bytes: for each cell the width of its type, and the length of a text or of bytes.
    pub fn estimated_size(&self) -> u64
        requires { frame_size self.now < 2 ^ 64 }
        ensures { result ≡ frame_size self.now }
    {
        size_of_columns(self.columns.as_slice())
    }
}

impl TryClone for DataFrame {
    fn try_clone(&self) -> Result<DataFrame, AllocError> {
        Ok(DataFrame {
            schema: self.schema.try_clone()?,
            columns: copy_items(*self.columns.allocator(), self.columns.as_slice())?,
            height: self.height,
        })
    }
}
