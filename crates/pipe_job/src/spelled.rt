//! What has a spelling in JSON, and how it is read.

ghost use Rattle.std.specs.Prelude.{◌≡◌, ◌^◌, ◌<◌, Bool, ⊤, FitsSigned};
ghost use Rattle.std.specs.Int.{w32, w64, w128};
ghost use Rattle.serde_json.specs.Data.{Data, number, unsigned, string, boolean};
ghost use Rattle.serde_json.specs.Find.{of_integer};
ghost use Rattle.pipe_value.specs.View.{view};
ghost use Rattle.pipe_job.specs.Shape.{is_unsigned, is_signed, is_decimal, is_text, is_truth};
ghost use Rattle.pipe_job.specs.Reads.{ReadWhere, ReadsSpelled};
ghost use Rattle.pipe_job.specs.Spelling.{decimal_spelling};

use crate::misread::Misread;
use itoa::Buffer;
use pipe_schema::Text;
use pipe_value::Value;
use std::alloc::Global;

/// What has one spelling in JSON.
pub trait Spelled: Drop {
    /// How it is spelled.
    ghost spelling: { Self → Data };

    /// What holds of each that is spelled.
    ghost fits: { Self → Type 0 };

    /// Whether a value spells one.
    ghost shape: { Data → Bool };

    /// The one that a value spells.
    fn read(alloc: Global, value: &Value) -> Result<Self, Misread>
        ensures { ReadsSpelled shape spelling fits (view value.now) result };
}

impl Spelled for u32 {
    ghost spelling = { λ n. number (unsigned n) };

    ghost fits = { λ n. n < 2 ^ 32 };

    ghost shape = { is_unsigned 32 };

    fn read(_alloc: Global, value: &Value) -> Result<u32, Misread> {
        match value.as_u64() {
            Some(n) if n < 1 << 32 => Ok(n as u32),
            _ => Err(Misread::Other),
        }
    }
}

impl Spelled for u64 {
    ghost spelling = { λ n. number (unsigned n) };

    ghost fits = { λ n. n < 2 ^ 64 };

    ghost shape = { is_unsigned 64 };

    fn read(_alloc: Global, value: &Value) -> Result<u64, Misread> {
        match value.as_u64() {
            Some(n) => Ok(n),
            None => Err(Misread::Other),
        }
    }
}

impl Spelled for i64 {
    ghost spelling = { λ z. number (of_integer z) };

    ghost fits = { FitsSigned w64 };

    ghost shape = { is_signed 63 };

    fn read(_alloc: Global, value: &Value) -> Result<i64, Misread> {
        match (value.as_u64(), value.as_i64()) {
            (Some(_), Some(z)) => Ok(z),
            (None, Some(z)) if z < 0 => Ok(z),
            _ => Err(Misread::Other),
        }
    }
}

impl Spelled for i32 {
    ghost spelling = { λ z. number (of_integer z) };

    ghost fits = { FitsSigned w32 };

    ghost shape = { is_signed 31 };

    fn read(alloc: Global, value: &Value) -> Result<i32, Misread> {
        let z = i64::read(alloc, value)?;
        match i32::try_from(z) {
            Ok(z) => Ok(z),
            Err(_) => Err(Misread::Other),
        }
    }
}

/// The number of 128 bits whose decimal text this is.
#[tactic(auto, using(crate::proofs::Decimals::decimal_rules))]
fn decimal_of(text: &str) -> Result<i128, Misread>
    ensures { ReadWhere (is_decimal (string text.now))
        (λ z. (string text.now ≡ decimal_spelling z) × FitsSigned w128 z) result }
{
    let Ok(z) = i128::from_str_radix(text, 10) else {
        return Err(Misread::Other);
    };
    // A text that isn't the number's own, as one with a plus sign or a leading zero, spells nothing.
    let mut buffer = Buffer::new();
    if buffer.format(z) == text {
        Ok(z)
    } else {
        Err(Misread::Other)
    }
}

impl Spelled for i128 {
    ghost spelling = { decimal_spelling };

    ghost fits = { FitsSigned w128 };

    ghost shape = { is_decimal };

    fn read(_alloc: Global, value: &Value) -> Result<i128, Misread> {
        match value.as_str() {
            Some(text) => decimal_of(text),
            None => Err(Misread::Other),
        }
    }
}

impl Spelled for bool {
    ghost spelling = { boolean };

    ghost fits = { λ _. ⊤ };

    ghost shape = { is_truth };

    fn read(_alloc: Global, value: &Value) -> Result<bool, Misread> {
        match value.as_bool() {
            Some(b) => Ok(b),
            None => Err(Misread::Other),
        }
    }
}

impl Spelled for Text {
    ghost spelling = { string };

    ghost fits = { λ _. ⊤ };

    ghost shape = { is_text };

    fn read(alloc: Global, value: &Value) -> Result<Text, Misread> {
        match value.as_str() {
            Some(text) => Ok(Text::from_str(alloc, text)?),
            None => Err(Misread::Other),
        }
    }
}
