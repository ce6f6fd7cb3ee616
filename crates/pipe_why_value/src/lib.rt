//! What is told of a value that spells no job, or not what another command reads: the first place of its text at which
//! something else stands than may, what may stand there, and what does.
#![tactic(auto)]

mod cells;
mod edits;
mod input_kind;
mod looking;
mod misfit;
mod order;
mod table;
mod told;
mod walk;
mod wrong;

pub use input_kind::InputKind;
pub use misfit::{misfits_of, push_misfit};
pub use wrong::{Misfit, Misfits, Wrong};
