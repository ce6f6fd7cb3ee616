//! Copies: each gives what its source gives.

use crate::exprs::told::{dtype_text, expr_line};
use pipe_expr::{
    Expr, FunctionIR, NamedExpr, PhysicalPipedExpr, RenamePair, copy_exprs, copy_named_exprs,
    expr_type, to_physical,
};
use pipe_frame::DataChunk;
use pipe_schema::{List, Schema, Text, TryClone};
use std::alloc::{AllocError, Global};
use worked_builders::Operand::{Col, Int};
use worked_builders::WrittenExpr::{Add, Gt, Sub};
use worked_builders::{WrittenExpr, expr_of, exprs_of, named_exprs_of};
use worked_columns::texts;

/// An expression with the name of its column.
pub(crate) fn named(
    alloc: Global,
    name: &str,
    written: WrittenExpr,
) -> Result<NamedExpr, AllocError> {
    Ok(NamedExpr {
        name: Text::from_str(alloc, name)?,
        expr: expr_of(alloc, written)?,
    })
}

/// The column of the copy of an expression with its name.
fn copy_of_named(alloc: Global, chunk: &DataChunk) -> Result<String, AllocError> {
    let source = named(alloc, "n", Add(Col("k"), Int(1)))?;
    let copy = source.try_clone()?;
    expr_line(alloc, &copy, chunk)
}

/// The name that an expression keeps where it is made for a schema.
fn kept_name(alloc: Global, chunk: &DataChunk) -> Result<String, AllocError> {
    let source = named(alloc, "n", Sub(Col("k"), Int(1)))?;
    let schema = chunk.frame.schema();
    match expr_type(&source.expr, schema.fields()) {
        Some(_) => {
            let made = to_physical(alloc, &source, schema)?;
            format!(in alloc; "made {}\n", made.expression().name.as_str())
        }
        None => String::from_str(alloc, "no type\n"),
    }
}

/// The types of expressions, none where they have none.
fn types_line(alloc: Global, exprs: &[Expr], schema: &Schema) -> Result<String, AllocError> {
    let mut line = String::from_str(alloc, "types")?;
    for expr in exprs {
        line.push_str(" ")?;
        match expr_type(expr, schema.fields()) {
            Some(dtype) => line.push_str(dtype_text(dtype))?,
            None => line.push_str("none")?,
        }
    }
    line.push_str("\n")?;
    Ok(line)
}

/// The types of the copies of two expressions.
fn copies_of_exprs(alloc: Global, chunk: &DataChunk) -> Result<String, AllocError> {
    let source = exprs_of(alloc, &[Add(Col("k"), Int(1)), Gt(Col("k"), Int(0))])?;
    let copies = copy_exprs(alloc, source.as_slice())?;
    types_line(alloc, copies.as_slice(), chunk.frame.schema())
}

/// The columns of the copies of two expressions with their names.
fn copies_of_named(alloc: Global, chunk: &DataChunk) -> Result<String, AllocError> {
    let source = named_exprs_of(
        alloc,
        &[
            ("less", Sub(Col("k"), Int(1))),
            ("up", Gt(Col("k"), Int(0))),
        ],
    )?;
    let copies = copy_named_exprs(alloc, source.as_slice())?;
    let mut lines = String::new(alloc);
    for copy in copies.as_slice() {
        lines.push_str(expr_line(alloc, copy, chunk)?.as_str())?;
    }
    Ok(lines)
}

/// A renaming.
fn renaming(alloc: Global) -> Result<RenamePair, AllocError> {
    Ok(RenamePair {
        existing: Text::from_str(alloc, "k")?,
        new_name: Text::from_str(alloc, "n")?,
    })
}

fn renaming_line(alloc: Global, pair: &RenamePair) -> Result<String, AllocError> {
    format!(in alloc;
        "rename {} {}\n",
        pair.existing.as_str(),
        pair.new_name.as_str()
    )
}

/// The copy of a renaming.
fn copy_of_renaming(alloc: Global) -> Result<String, AllocError> {
    let source = renaming(alloc)?;
    renaming_line(alloc, &source.try_clone()?)
}

/// A function in words.
fn function_line(alloc: Global, function: &FunctionIR) -> Result<String, AllocError> {
    match function {
        FunctionIR::Rename { pairs } => {
            let mut lines = String::new(alloc);
            for pair in pairs.as_slice() {
                lines.push_str(renaming_line(alloc, pair)?.as_str())?;
            }
            Ok(lines)
        }
        FunctionIR::Unpivot {
            on,
            index,
            variable,
            value,
        } => {
            let mut line = String::from_str(alloc, "unpivot")?;
            for name in on.as_slice() {
                line.push_str(format!(in alloc; " {}", name.as_str())?.as_str())?;
            }
            line.push_str(" by")?;
            for name in index.as_slice() {
                line.push_str(format!(in alloc; " {}", name.as_str())?.as_str())?;
            }
            let (variable, value) = (variable.as_str(), value.as_str());
            line.push_str(format!(in alloc; " under {variable} {value}\n")?.as_str())?;
            Ok(line)
        }
    }
}

/// The copy of a function of renamings.
fn copy_of_renamings(alloc: Global) -> Result<String, AllocError> {
    let mut pairs = List::new(alloc);
    pairs.push(renaming(alloc)?)?;
    let source = FunctionIR::Rename { pairs };
    function_line(alloc, &source.try_clone()?)
}

/// The copy of an unpivot.
fn copy_of_unpivot(alloc: Global) -> Result<String, AllocError> {
    let source = FunctionIR::Unpivot {
        on: texts(alloc, &["a", "b"])?,
        index: texts(alloc, &["id"])?,
        variable: Text::from_str(alloc, "variable")?,
        value: Text::from_str(alloc, "value")?,
    };
    function_line(alloc, &source.try_clone()?)
}

/// The lines of all copies, of expressions over a chunk with the column `k`.
pub(crate) fn lines(alloc: Global, chunk: &DataChunk) -> Result<String, AllocError> {
    let mut lines = String::from_str(alloc, "# copies\n")?;
    lines.push_str(copy_of_named(alloc, chunk)?.as_str())?;
    lines.push_str(kept_name(alloc, chunk)?.as_str())?;
    lines.push_str(copies_of_exprs(alloc, chunk)?.as_str())?;
    lines.push_str(copies_of_named(alloc, chunk)?.as_str())?;
    lines.push_str(copy_of_renaming(alloc)?.as_str())?;
    lines.push_str(copy_of_renamings(alloc)?.as_str())?;
    lines.push_str(copy_of_unpivot(alloc)?.as_str())?;
    Ok(lines)
}
