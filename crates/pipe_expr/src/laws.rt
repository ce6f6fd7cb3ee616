//! Laws of the definitions.

ghost use Rattle.std.specs.Prelude.{◌≡◌, List, None};
ghost use Rattle.pipe_schema.specs.declared.field.Field.{Field as Column};
ghost use Rattle.pipe_expr.specs.Formula.{Formula};
ghost use Rattle.pipe_expr.specs.Types.{unknown_column};
ghost use Rattle.pipe_expr.specs.Typing.{IsTyped};

/// A formula that has a type names known columns alone.
pub fn typed_names_are_known()
    ensures { (f : Formula) (s : List Column) → IsTyped f s → unknown_column s f ≡ None }
{}
