//! Expressions as what gives columns, for functions over lists of them.

ghost use Rattle.std.specs.Prelude.{◌≡◌, IfOk};

use pipe_column::Series;
use pipe_expr::PhysicalPipedExpr;
use pipe_frame::DataChunk;
use pipe_schema::Text;
use std::alloc::{AllocError, Global};

/// What gives a column over a chunk: each expression that was made for a schema.
pub(crate) trait GivesColumn {
    ghost use Rattle.std.specs.Prelude.{List};
    ghost use Rattle.pipe_frame.specs.Chunks.{HasSchema};
    ghost use Rattle.pipe_schema.specs.declared.field.Field.{Field};
    ghost use Rattle.pipe_expr.specs.Physical.{expr_column};
    ghost use Rattle.pipe_expr.specs.Formula.{NamedFormula};

    /// The expression with its name.
    ghost named: { Self → NamedFormula };

    /// The schema that it was made for.
    ghost made_for: { Self → List Field };

    /// The column over a chunk of that schema.
    fn column(&self, alloc: Global, chunk: &DataChunk) -> Result<Series, AllocError>
        requires { HasSchema (made_for self.now) chunk.now }
        ensures { IfOk result (λ column. column ≡ expr_column (named self.now) chunk.now.frame) };

    /// The column's name.
    fn name(&self) -> &Text
        ensures { result.now ≡ (named self.now).name };
}

impl<P: PhysicalPipedExpr> GivesColumn for P {
    ghost named = { P.expr_of };

    ghost made_for = { P.schema_of };

    fn column(&self, alloc: Global, chunk: &DataChunk) -> Result<Series, AllocError> {
        self.evaluate(alloc, chunk)
    }

    fn name(&self) -> &Text {
        &self.expression().name
    }
}
