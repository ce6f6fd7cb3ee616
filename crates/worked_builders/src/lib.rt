//! Plans written as data and built node by node, for programs that work cases out.
#![tactic(auto)]

mod expr;
mod join;
mod node;
mod plan;
mod sort;

pub use expr::{Operand, WrittenExpr, expr_of, exprs_of, named_exprs_of};
pub use join::{INNER_ON_K, WrittenHint, WrittenJoin};
pub use node::{WrittenNode, WrittenPlan};
pub use plan::{BuiltPlan, plan_of};
pub use sort::{BY_K, WrittenSort};
