//! Numbers, texts and nulls, written.

ghost use Rattle.std.specs.Prelude.{◌≡◌, IsTrue, OnOk};
ghost use Rattle.std.specs.Float.{float_is_finite};
ghost use Rattle.std.specs.Option.{option_copied};
ghost use Rattle.json.specs.Print.{ArePrintable};
ghost use Rattle.serde_json.specs.Data.{float, null, number, string, unsigned};
ghost use Rattle.serde_json.specs.Find.{of_integer};
ghost use Rattle.serde_json.specs.View.{number_view};
ghost use Rattle.serde_json.specs.Written.{WritesValue};
ghost use Rattle.pipe_value.specs.Columns.{integer_data, text_data, whole_data};

use json::Writer;
use serde_json::Number;
use std::alloc::AllocError;

/// Writes null.
#[tactic(auto, using(crate::proofs::Fronts::printable_push))]
pub(crate) fn write_null(out: &mut Writer) -> Result<(), AllocError>
    ensures ok { OnOk result (WritesValue null out.old.tokens out.new.tokens) }
    ensures printable { OnOk result
        (ArePrintable out.old.tokens → ArePrintable out.new.tokens) }
    ensures before { out.new.before ≡ out.old.before }
{
    out.null()
}

/// Writes a text.
#[tactic(auto, using(crate::proofs::Fronts::printable_push))]
pub(crate) fn write_str(out: &mut Writer, text: &str) -> Result<(), AllocError>
    ensures ok { OnOk result (WritesValue (string text.now) out.old.tokens out.new.tokens) }
    ensures printable { OnOk result
        (ArePrintable out.old.tokens → ArePrintable out.new.tokens) }
    ensures before { out.new.before ≡ out.old.before }
{
    out.string(text)
}

/// Writes a whole number.
#[tactic(auto, using(crate::proofs::Fronts::printable_push))]
fn write_u64(out: &mut Writer, n: u64) -> Result<(), AllocError>
    ensures ok { OnOk result
        (WritesValue (number (unsigned n)) out.old.tokens out.new.tokens) }
    ensures printable { OnOk result
        (ArePrintable out.old.tokens → ArePrintable out.new.tokens) }
    ensures before { out.new.before ≡ out.old.before }
{
    out.u64(n)
}

/// Writes an integer.
#[tactic(auto, using(crate::proofs::Fronts::printable_push))]
fn write_i64(out: &mut Writer, z: i64) -> Result<(), AllocError>
    ensures ok { OnOk result
        (WritesValue (number (of_integer z)) out.old.tokens out.new.tokens) }
    ensures printable { OnOk result
        (ArePrintable out.old.tokens → ArePrintable out.new.tokens) }
    ensures before { out.new.before ≡ out.old.before }
{
    out.i64(z)
}

/// Writes a float by the shortest digits that were found to read as the float.
#[tactic(auto, using(crate::proofs::Fronts::printable_push))]
fn write_f64(out: &mut Writer, x: f64) -> Result<(), AllocError>
    requires { IsTrue (float_is_finite x) }
    ensures ok { OnOk result (WritesValue (number (float x)) out.old.tokens out.new.tokens) }
    ensures printable { OnOk result
        (ArePrintable out.old.tokens → ArePrintable out.new.tokens) }
    ensures before { out.new.before ≡ out.old.before }
{
    out.float_with_plus(x)
}

/// Writes an integer, or null.
pub(crate) fn write_integer(out: &mut Writer, x: Option<i64>) -> Result<(), AllocError>
    ensures ok { OnOk result (WritesValue (integer_data x) out.old.tokens out.new.tokens) }
    ensures printable { OnOk result
        (ArePrintable out.old.tokens → ArePrintable out.new.tokens) }
    ensures before { out.new.before ≡ out.old.before }
{
    match x {
        Some(z) => write_i64(out, z),
        None => write_null(out),
    }
}

/// Writes a whole number, or null.
pub(crate) fn write_whole(out: &mut Writer, x: Option<u64>) -> Result<(), AllocError>
    ensures ok { OnOk result (WritesValue (whole_data x) out.old.tokens out.new.tokens) }
    ensures printable { OnOk result
        (ArePrintable out.old.tokens → ArePrintable out.new.tokens) }
    ensures before { out.new.before ≡ out.old.before }
{
    match x {
        Some(n) => write_u64(out, n),
        None => write_null(out),
    }
}

/// Writes a text, or null.
pub(crate) fn write_text(out: &mut Writer, x: Option<&str>) -> Result<(), AllocError>
    ensures ok { OnOk result
        (WritesValue (text_data (option_copied x.entry)) out.old.tokens out.new.tokens) }
    ensures printable { OnOk result
        (ArePrintable out.old.tokens → ArePrintable out.new.tokens) }
    ensures before { out.new.before ≡ out.old.before }
{
    match x {
        Some(text) => write_str(out, text),
        None => write_null(out),
    }
}

/// Writes a number.
#[tactic(auto, using(crate::proofs::Fronts::number_is_u64, crate::proofs::Fronts::number_is_i64, crate::proofs::Fronts::number_is_f64))]
pub(crate) fn write_number(out: &mut Writer, x: Number) -> Result<(), AllocError>
    ensures ok { OnOk result
        (WritesValue (number (number_view x)) out.old.tokens out.new.tokens) }
    ensures printable { OnOk result
        (ArePrintable out.old.tokens → ArePrintable out.new.tokens) }
    ensures before { out.new.before ≡ out.old.before }
{
    match (x.as_u64(), x.as_i64(), x.as_f64()) {
        (Some(n), _, _) => write_u64(out, n),
        (None, Some(z), _) => write_i64(out, z),
        (None, None, Some(float)) => write_f64(out, float),
        (None, None, None) => unreachable!(),
    }
}
