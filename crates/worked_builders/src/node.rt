//! Nodes and plans as they are written.

use crate::expr::WrittenExpr;
use crate::join::WrittenJoin;
use crate::sort::WrittenSort;
use worked_columns::WrittenColumn;

/// A node of a plan. Inputs are numbers of nodes, which are numbered from 0 in the order in which they stand.
#[derive(Clone, Copy)]
pub enum WrittenNode {
    /// Scans a new frame. Columns that make no frame are left out, so that the scan names no frame.
    Scan(&'static [WrittenColumn<'static>]),
    /// Scans some columns of a new frame.
    ScanOnly(&'static [WrittenColumn<'static>], &'static [&'static str]),
    /// Scans the frame of a number, which an earlier scan made.
    ScanAgain(u32),
    Filter(u32, WrittenExpr),
    SimpleProjection(u32, &'static [&'static str]),
    Select(u32, &'static [(&'static str, WrittenExpr)]),
    HStack(u32, &'static [(&'static str, WrittenExpr)]),
    /// Unpivots columns under the names `variable` and `value`.
    Unpivot {
        input: u32,
        on: &'static [&'static str],
        index: &'static [&'static str],
    },
    /// Renames columns: each pair is a column's name, and the name that it gets.
    Rename(u32, &'static [(&'static str, &'static str)]),
    Union(&'static [u32]),
    Join(u32, u32, WrittenJoin),
    Sort(u32, WrittenSort),
}

/// A plan and what it shows. Its root is the last node.
#[derive(Clone, Copy)]
pub struct WrittenPlan {
    pub shows: &'static str,
    pub nodes: &'static [WrittenNode],
}
