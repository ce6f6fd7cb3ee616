//! The nodes of a plan and the frames that they scan.

use crate::ir::IR;
use pipe_frame::DataFrame;
use pipe_schema::List;

/// Nodes, numbered from 0, and frames, numbered from 0.
#[derive(Debug)]
pub struct Arena {
    pub nodes: List<IR>,
    pub frames: List<DataFrame>,
}

impl Drop for Arena {
    fn drop(self) {
        let Arena { nodes, frames } = self;
        drop(nodes);
        drop(frames);
    }
}
