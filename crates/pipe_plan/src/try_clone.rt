//! Copies of nodes and of their options.
//!
//! A copy of a node isn't equal to its source, since the boxes of its expressions lie elsewhere in memory: it is the
//! same node of a plan. The options have no boxes, so their copies are equal.

ghost use Rattle.std.specs.Prelude.{◌≡◌, IfOk};
ghost use Rattle.pipe_plan.specs.Node.{node_of};

use crate::ir::{IR, JoinOptions, SortOptions};
use pipe_expr::{copy_exprs, copy_named_exprs};
use pipe_schema::{List, Text, TryClone};
use std::alloc::{AllocError, Global};

impl TryClone for JoinOptions {
    fn try_clone(&self) -> Result<JoinOptions, AllocError> {
        Ok(JoinOptions {
            how: self.how,
            join_nulls: self.join_nulls,
            coalesce: self.coalesce,
            suffix: self.suffix.try_clone()?,
            rows_left: self.rows_left,
            rows_right: self.rows_right,
        })
    }
}

impl TryClone for SortOptions {
    fn try_clone(&self) -> Result<SortOptions, AllocError> {
        Ok(SortOptions {
            descending: self.descending.try_clone()?,
            nulls_last: self.nulls_last.try_clone()?,
            slice: self.slice,
        })
    }
}

/// A copy of the columns that a scan names, if it names any.
fn copy_names(names: &Option<List<Text>>) -> Result<Option<List<Text>>, AllocError>
    ensures { IfOk result (λ copy. copy ≡ names.now) }
{
    match names {
        Some(names) => Ok(Some(names.try_clone()?)),
        None => Ok(None),
    }
}

impl IR {
    /// A copy, which is the same node of a plan.
    pub fn try_clone(&self, alloc: Global) -> Result<IR, AllocError>
        ensures { IfOk result (λ copy. node_of copy ≡ node_of self.now) }
    {
        match self {
            IR::DataFrameScan { frame, columns } => Ok(IR::DataFrameScan {
                frame: *frame,
                columns: copy_names(columns)?,
            }),
            IR::Filter { input, predicate } => Ok(IR::Filter {
                input: *input,
                predicate: predicate.try_clone()?,
            }),
            IR::SimpleProjection { input, columns } => Ok(IR::SimpleProjection {
                input: *input,
                columns: columns.try_clone()?,
            }),
            IR::Select { input, exprs } => Ok(IR::Select {
                input: *input,
                exprs: copy_named_exprs(alloc, exprs.as_slice())?,
            }),
            IR::HStack { input, exprs } => Ok(IR::HStack {
                input: *input,
                exprs: copy_named_exprs(alloc, exprs.as_slice())?,
            }),
            IR::MapFunction { input, function } => Ok(IR::MapFunction {
                input: *input,
                function: function.try_clone()?,
            }),
            IR::Union { inputs } => Ok(IR::Union {
                inputs: inputs.try_clone()?,
            }),
            IR::Join {
                left,
                right,
                left_on,
                right_on,
                options,
            } => Ok(IR::Join {
                left: *left,
                right: *right,
                left_on: copy_exprs(alloc, left_on.as_slice())?,
                right_on: copy_exprs(alloc, right_on.as_slice())?,
                options: options.try_clone()?,
            }),
            IR::Sort { input, by, options } => Ok(IR::Sort {
                input: *input,
                by: by.try_clone()?,
                options: options.try_clone()?,
            }),
        }
    }
}
