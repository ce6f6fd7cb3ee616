//! The columns of a schema, found by their names.

ghost use Rattle.std.specs.Prelude.{◌≡◌, []};
ghost use Rattle.std.specs.Option.{option_copied};
ghost use Rattle.pipe_schema.specs.Schema.{name_of};
ghost use Rattle.pipe_check.specs.Named.{first_named};

use pipe_schema::{Field, Schema, Text};
use std::marker::Model;

/// The field of a name in a schema.
#[tactic(auto, using(crate::proofs::Places::place_rules))]
fn field_in<'a>(schema: &'a Schema, name: &Text) -> Option<&'a Field>
    ensures { option_copied result ≡ first_named name_of schema.now name.now }
{
    match schema.index_of(name.as_bytes()) {
        Some(place) => Some(schema.field(place)),
        None => None,
    }
}

/// The columns of a schema, or none where there is no schema.
#[derive(Drop)]
pub struct Columns<'a> {
    schema: Option<&'a Schema>,
}

impl<'a> Model for Columns<'a> {
    ghost use Rattle.std.specs.Prelude.{List, [], unwrap_or};
    ghost use Rattle.std.specs.Option.{option_copied};
    ghost use Rattle.pipe_schema.specs.declared.field.Field.{Field};

    ghost Value = { List Field };

    ghost view = { λ columns. unwrap_or (option_copied columns.schema) [] };
}

impl<'a> Columns<'a> {
    /// The columns of a schema.
    pub fn of(schema: &'a Schema) -> Columns<'a>
        ensures { result ≡ schema.now }
    {
        Columns {
            schema: Some(schema),
        }
    }

    /// No columns.
    pub fn none() -> Columns<'a>
        ensures { result ≡ [] }
    {
        Columns { schema: None }
    }

    /// The fields of the columns.
    pub fn fields(&self) -> &'a [Field]
        ensures { result.now ≡ self.now }
    {
        match self.schema {
            Some(schema) => schema.fields(),
            None => &[],
        }
    }

    /// The field of the column of a name.
    pub fn field(&self, name: &Text) -> Option<&'a Field>
        ensures { option_copied result ≡ first_named name_of self.now name.now }
    {
        match self.schema {
            Some(schema) => field_in(schema, name),
            None => None,
        }
    }
}
