//! Columns of one type, seen as lists of values of which some are missing, and series: columns with a name, seen as
//! lists of cells.
#![tactic(auto)]

mod buffer;
mod bytes_column;
mod bytes_list;
mod column;
mod native;
mod part;
mod piece_buffer;
mod piece_part;
mod place;
mod series;
mod string_column;
mod validities;
mod validity;
mod values;

pub use bytes_column::BinaryColumn;
pub use bytes_list::BytesList;
pub use column::Column;
pub use native::Native;
pub use place::Place;
pub use series::Series;
pub use string_column::StringColumn;
pub use validities::Validities;
