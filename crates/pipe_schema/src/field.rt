//! A column's name and type.

use crate::data_type::DataType;
use crate::text::Text;
use crate::try_clone::TryClone;
use std::alloc::AllocError;

/// The name and the type of a column.
#[derive(Debug, Drop)]
pub struct Field {
    pub name: Text,
    pub dtype: DataType,
}

impl TryClone for Field {
    fn try_clone(&self) -> Result<Field, AllocError> {
        Ok(Field {
            name: self.name.try_clone()?,
            dtype: self.dtype,
        })
    }
}
