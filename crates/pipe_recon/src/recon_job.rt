//! What is reconciled, and how it is run.

use crate::recon_spec::ReconSpec;
use pipe_frame::DataFrame;
use pipe_plan::PipeConfig;

/// Two tables, the key by which they are reconciled, and how that is run.
#[derive(Debug)]
pub struct ReconJob {
    /// 1 or 2. Only version 2 has the type Int128.
    pub version: u32,
    pub config: PipeConfig,
    pub left: DataFrame,
    pub right: DataFrame,
    pub spec: ReconSpec,
}

impl Drop for ReconJob {
    fn drop(self) {
        let ReconJob {
            version: _,
            config: _,
            left,
            right,
            spec,
        } = self;
        drop(left);
        drop(right);
        drop(spec);
    }
}
