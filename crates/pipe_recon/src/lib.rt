//! Reconciliations of two tables by their keys: which rows have a partner on the other side, and the least of them,
//! told by the rows of a full join of their codes.
//!
//! How the two tables, the key and the numbers of a run are spelled in JSON, the reader of that, and the lines of a
//! reconciliation.
#![tactic(auto)]

mod arena;
mod checking;
mod coded;
mod codes;
mod laws;
mod least;
mod lines;
mod pairs;
mod reading;
mod recon;
mod recon_job;
mod recon_spec;
mod refusals;

pub use arena::join_arena;
pub use checking::check_recon;
pub use codes::codes_of;
pub use laws::one_recon_job;
pub use lines::recon_lines;
pub use pairs::recon_in;
pub use reading::{read_recon_job, recon_job_of};
pub use recon::{Partner, Recon};
pub use recon_job::ReconJob;
pub use recon_spec::ReconSpec;
pub use refusals::check_spec;
