//! JSON values with long arrays packed into columns.
//!
//! A value is seen as the same data as that of `serde_json`, and a number in a long array takes nine bytes.
#![tactic(auto)]

mod columns;
mod error;
mod items;
mod number;
mod read;
mod value;

pub use columns::Columns;
pub use error::ReadError;
pub use items::Item;
pub use value::Value;
