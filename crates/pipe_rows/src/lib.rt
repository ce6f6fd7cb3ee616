//! Keys as bytes: equal keys exactly where the bytes are equal, and the order of keys is the order of bytes.
#![tactic(auto)]

mod byte_string;
mod decode;
mod decode_value;
mod dense;
mod encode;
mod encoding;
mod equality;
mod error;
mod even_rows;
mod filling;
mod fixed_width;
mod hasher;
mod key_column;
mod ordered;
mod partition;
mod row_bytes;
mod rows_encoded;
mod sort_field;
mod sorting;

pub use decode::decode_rows;
pub use equality::{convert_columns_no_order, equal_encodings};
pub use error::RowsError;
pub use hasher::{ConstHash, Fnv, KeyHasher};
pub use ordered::{convert_columns, ordered_encodings};
pub use partition::{partition_count, partition_of};
pub use rows_encoded::RowsEncoded;
pub use sort_field::SortField;
pub use sorting::{same_rows_sort_alike, sorted_lists};
