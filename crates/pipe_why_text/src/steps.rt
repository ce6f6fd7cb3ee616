//! Where a part of a value stands: the steps that lead to it.

ghost use Rattle.std.specs.Prelude.{◌≡◌, ◌++◌, codes, decimal, string_bytes, IfOk, OnOk};
ghost use Rattle.pipe_why_text.specs.Places.{Appends, IsBracketed, IsNameText, IsPlaceText, IsStepText, is_plain, is_plain_byte, plain_text};

use crate::words::push_quoted;
use itoa::Buffer;
use pipe_schema::Text;
use std::alloc::{AllocError, Global};

/// A step into a value.
#[derive(Drop)]
pub enum Step {
    /// To the member of an object.
    Member(Text),
    /// To the item of an array.
    Item(usize),
}

impl Step {
    /// A copy of the step.
    pub fn copied(&self, alloc: Global) -> Result<Step, AllocError>
        ensures { IfOk result (λ step. step ≡ self.now) }
    {
        match self {
            Step::Member(name) => Ok(Step::Member(Text::from_str(alloc, name.as_str())?)),
            Step::Item(i) => Ok(Step::Item(*i)),
        }
    }
}

/// Copies of some steps.
pub fn copies(alloc: Global, steps: &[Step]) -> Result<Vec<Step>, AllocError>
    ensures { IfOk result (λ copied. copied.items ≡ steps.now) }
{
    let mut copied = Vec::new(alloc);
    for step in steps {
        copied.push(step.copied(alloc)?)?;
    }
    Ok(copied)
}

/// Whether a byte is a letter, a digit or a low line.
fn is_plain_byte(byte: u8) -> bool
    ensures { result ≡ is_plain_byte byte }
{
    byte.is_ascii_alphanumeric() || byte == b'_'
}

/// Whether a name needs no quotes.
fn is_plain(name: &str) -> bool
    ensures { result ≡ is_plain name.now }
{
    for byte in name.as_bytes() {
        if !is_plain_byte(*byte) {
            return false;
        }
    }
    !name.is_empty()
}

/// Appends the number of an item.
fn push_item(out: &mut String, i: usize) -> Result<(), AllocError>
    ensures { OnOk result (string_bytes out.new
        ≡ string_bytes out.old ++ (codes "[" ++ decimal i ++ codes "]")) }
{
    let mut digits = Buffer::new();
    out.push_str("[")?;
    out.push_str(digits.format(i))?;
    out.push_str("]")?;
    Ok(())
}

/// Appends a name that needs no quotes.
fn push_plain(out: &mut String, name: &str, is_first: bool) -> Result<(), AllocError>
    ensures { OnOk result (string_bytes out.new
        ≡ string_bytes out.old ++ plain_text is_first name.now) }
{
    if is_first {
        out.push_str(name)?;
        return Ok(());
    }
    out.push_str(".")?;
    out.push_str(name)?;
    Ok(())
}

/// A text in double quotes, cut where it is long.
fn quoted(alloc: Global, text: &str) -> Result<String, AllocError> {
    let mut out = String::new(alloc);
    push_quoted(&mut out, text)?;
    Ok(out)
}

/// Appends a name in quotes and brackets.
fn push_bracketed(alloc: Global, out: &mut String, name: &str) -> Result<(), AllocError>
    ensures { OnOk result (Appends IsBracketed out.old out.new) }
{
    let name = quoted(alloc, name)?;
    out.push_str("[")?;
    out.push_str(name.as_str())?;
    out.push_str("]")?;
    Ok(())
}

/// Appends the name of a member.
fn push_member(
    alloc: Global,
    out: &mut String,
    name: &str,
    is_first: bool,
) -> Result<(), AllocError>
    ensures { OnOk result
        (Appends (IsNameText is_first name.now (is_plain name.now)) out.old out.new) }
{
    if is_plain(name) {
        push_plain(out, name, is_first)
    } else {
        push_bracketed(alloc, out, name)
    }
}

/// Appends a step.
fn push_step(alloc: Global, out: &mut String, step: &Step, is_first: bool) -> Result<(), AllocError>
    ensures { OnOk result (Appends (IsStepText is_first step.now) out.old out.new) }
{
    match step {
        Step::Item(i) => push_item(out, *i),
        Step::Member(name) => push_member(alloc, out, name.as_str(), is_first),
    }
}

/// Appends the steps, as `plan[3].left_on[0].lit.value`; without a step, that it is the whole.
pub fn push_steps(alloc: Global, out: &mut String, steps: &[Step]) -> Result<(), AllocError>
    ensures { OnOk result (Appends (IsPlaceText steps.now) out.old out.new) }
{
    if steps.is_empty() {
        out.push_str("the whole text")?;
        return Ok(());
    }
    let mut is_first = true;
    for step in steps {
        push_step(alloc, out, step, is_first)?;
        is_first = false;
    }
    Ok(())
}
