//! Expressions, and the words of joins and functions.
//!
//! An expression is seen as its formula, which has a type over a schema and a value at each row. Evaluated over a frame
//! it gives the column of these values.
#![tactic(auto)]

mod arithmetic;
mod byte_strings;
mod collect;
mod column_types;
mod comparison;
mod constant;
mod error;
mod evaluate;
mod expr;
mod integer;
mod join_laws;
mod join_words;
mod kernel;
mod laws;
mod logic;
mod native_operand;
mod null_test;
mod nullable_values;
mod operand;
mod physical;
mod try_clone;
mod typing;

pub use column_types::ColumnTypes;
pub use error::ExprError;
pub use expr::{Expr, NamedExpr};
pub use join_laws::shares_are_the_join;
pub use join_words::{FunctionIR, JoinCoalesce, JoinType, RenamePair};
pub use laws::typed_names_are_known;
pub use physical::{PhysicalExpr, PhysicalPipedExpr, to_physical};
pub use try_clone::{copy_exprs, copy_named_exprs};
pub use typing::{column_type, expr_type, type_of, type_over, unknown_name};
