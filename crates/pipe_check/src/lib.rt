//! The check of a plan: its fault, exactly, or the plan with the schemas of its nodes.
//!
//! The one contract used above: a `CheckedPlan` is well-formed, and each schema that it gives is the node's. The fields
//! of a node are found over those of its inputs in time that is nearly linear in them: columns by the order of their
//! schema, and other things by an index of their names.
#![tactic(auto)]

mod bad_join;
mod bad_node;
mod bad_sort;
mod below;
mod check;
mod checked_plan;
mod columns;
mod duplicate_name;
mod function_fields;
mod handed;
mod inputs;
mod joined;
mod named;
mod named_fields;
mod node_check;
mod outputs;
mod stacked;
mod type_mismatch;
mod typing;
mod under;
mod unknown_column;

pub use below::{columns_of, columns_of_frame};
pub use checked_plan::{CheckedPlan, check_plan};
pub use columns::Columns;
pub use handed::handed_on;
pub use joined::{is_coalescing, plain_names};
pub use named::{NameIndex, Named};
pub use outputs::node_fields;
pub use typing::{are_same_types, column_type, expr_type, is_same_type};
pub use under::nodes_under;
