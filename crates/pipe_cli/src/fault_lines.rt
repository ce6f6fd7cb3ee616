//! The lines of errors: the error's name, the node and, as JSON text, the name that is told.

ghost use Rattle.std.specs.Prelude.{◌≡◌, ◌++◌, string_bytes, IfOk, OnOk};
ghost use Rattle.json.specs.Print.{quoted};
ghost use Rattle.pipe_cli.specs.FaultLine.{at_node, fault_line, line_at, line_with_name, with_name};

use itoa::Buffer;
use pipe_plan::PipeError;
use pipe_schema::{Bytes, Text};
use serde_json::Value;
use std::alloc::{AllocError, Global};

/// Appends an error's name and the number of its node.
fn push_node(out: &mut Vec<u8>, error: &str, n: u32) -> Result<(), AllocError>
    ensures { OnOk result (out.new.items ≡ out.old.items ++ at_node error.now n) }
{
    out.extend_from_slice(error.as_bytes())?;
    out.extend_from_slice(b" at node ")?;
    let mut buffer = Buffer::new();
    out.extend_from_slice(buffer.format(n).as_bytes())
}

/// A name as JSON text.
fn quoted_name(alloc: Global, name: &Text) -> Result<String, AllocError>
    ensures { IfOk result (λ text. string_bytes text ≡ quoted name.now) }
{
    let value = Value::String(String::from_str(alloc, name.as_str())?);
    value.to_string(alloc)
}

/// Appends the name that an error tells, as JSON text.
fn push_name(alloc: Global, out: &mut Vec<u8>, name: &Text) -> Result<(), AllocError>
    ensures { OnOk result (out.new.items ≡ out.old.items ++ with_name name.now) }
{
    let text = quoted_name(alloc, name)?;
    out.extend_from_slice(b": ")?;
    out.extend_from_slice(text.as_bytes())
}

/// The line of an error at a node.
fn node_line(alloc: Global, error: &str, n: u32) -> Result<Bytes, AllocError>
    ensures { IfOk result (λ line. line ≡ line_at error.now n) }
{
    let mut line = Vec::new(alloc);
    push_node(&mut line, error, n)?;
    line.push(b'\n')?;
    Ok(Bytes::from_vec(line))
}

/// The line of an error at a node that tells a name.
fn name_line(alloc: Global, error: &str, n: u32, name: &Text) -> Result<Bytes, AllocError>
    ensures { IfOk result (λ line. line ≡ line_with_name error.now n name.now) }
{
    let mut line = Vec::new(alloc);
    push_node(&mut line, error, n)?;
    push_name(alloc, &mut line, name)?;
    line.push(b'\n')?;
    Ok(Bytes::from_vec(line))
}

/// The line that is noted for an error: its status and its name, the node at which it stands and, as JSON text, the
/// name that it tells.
pub fn fault_line(alloc: Global, error: &PipeError) -> Result<Bytes, AllocError>
    ensures { IfOk result (λ line. line ≡ fault_line error.now) }
{
    match error {
        PipeError::BadConfig => Bytes::from_slice(alloc, b"error 6: BadConfig\n"),
        PipeError::BadNode(n) => node_line(alloc, "error 6: BadNode", *n),
        PipeError::UnknownColumn(n, name) => name_line(alloc, "error 6: UnknownColumn", *n, name),
        PipeError::DuplicateName(n, name) => name_line(alloc, "error 6: DuplicateName", *n, name),
        PipeError::TypeMismatch(n) => node_line(alloc, "error 6: TypeMismatch", *n),
        PipeError::BadJoin(n) => node_line(alloc, "error 6: BadJoin", *n),
        PipeError::BadSort(n) => node_line(alloc, "error 6: BadSort", *n),
        PipeError::TooMany(n) => node_line(alloc, "error 7: TooMany", *n),
        PipeError::Stopped => Bytes::from_slice(alloc, b"error 8: stopped\n"),
        PipeError::Memory => Bytes::from_slice(alloc, b"error 10: out of memory\n"),
    }
}
