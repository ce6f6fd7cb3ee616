//! Columns whose types are found by their names.

ghost use Rattle.std.specs.Prelude.{◌≡◌, List};
ghost use Rattle.pipe_schema.specs.declared.field.Field.{Field};
ghost use Rattle.pipe_expr.specs.Types.{type_of_column};

use pipe_schema::{DataType, Text};

/// Columns whose types are found by their names.
pub trait ColumnTypes {
    /// The fields of the columns.
    ghost fields: { Self → List Field };

    /// The type of the first column of a name, none where no column has it.
    fn type_of_name(&self, name: &Text) -> Option<DataType>
        ensures { result ≡ type_of_column name.now (fields self.now) };
}
