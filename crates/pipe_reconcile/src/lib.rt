//! Running a reconciliation of two tables: the full join of their codes, by a plan.
#![tactic(auto)]

mod joining;
mod reconciling;

pub use reconciling::reconcile;
