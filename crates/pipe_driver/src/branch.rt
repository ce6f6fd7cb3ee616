//! The branches of a plan (polars-pipe's `Branch` and `SinkNode`, there private to its converter).

use pipe_schema::List;

/// Where the rows of a branch go.
#[derive(Clone, Copy, Debug, PartialEq, Eq)]
pub enum SinkAt {
    /// The sink of the root, which gives the plan's frame.
    Ordered,
    /// The sink of a sort.
    Sort(u32),
    /// The sink of the side of a join that is built.
    Build(u32),
}

/// A sink of a branch: how many of the branch's operators stand before it, where it stands in the plan, and its
/// number. A sink that several branches feed has one number.
#[derive(Clone, Copy, Debug)]
pub struct SinkNode {
    pub offset: u32,
    pub at: SinkAt,
    pub count: u32,
}

/// A branch of a plan, by numbers of nodes: the scan or the union of scans that it begins with, the operators that its
/// rows go through, and the sinks between and after them.
#[derive(Debug)]
pub struct Branch {
    pub source: u32,
    pub operators: List<u32>,
    pub sinks: List<SinkNode>,
}

impl Drop for Branch {
    fn drop(self) {
        let Branch {
            source: _,
            operators,
            sinks,
        } = self;
        drop(operators);
        drop(sinks);
    }
}
