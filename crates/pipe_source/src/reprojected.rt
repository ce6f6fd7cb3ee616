//! What becomes of chunks on their way out of a source.

ghost use Rattle.std.specs.Prelude.{◌≡◌, ℕ, ◌+◌, ◌^◌, ◌<◌, map, IfOk};
ghost use Rattle.std.specs.List.{AllByRecursion};
ghost use Rattle.pipe_source.specs.Morsels.{HasAll, AnswerHas, IsReprojectedAnswer, ArePartsBelow, later, reprojected_morsel};

use pipe_ops::{Morsel, SourceResult, reproject_chunk};
use pipe_schema::Schema;
use std::alloc::{AllocError, Global};

/// An answer whose chunks get the columns of a schema, each of whose fields they have.
pub(crate) fn reproject_answer(
    alloc: Global,
    answer: SourceResult,
    schema: &Schema,
) -> Result<SourceResult, AllocError>
    requires { AnswerHas schema.now answer }
    ensures { IfOk result (IsReprojectedAnswer schema.now answer) }
{
    match answer {
        SourceResult::Finished => Ok(SourceResult::Finished),
        SourceResult::GotMoreData(mut morsels) => {
            reproject_each(alloc, morsels.as_mut_slice(), schema)?;
            Ok(SourceResult::GotMoreData(morsels))
        }
    }
}

/// Gives chunks the columns of a schema, each of whose fields they have.
fn reproject_each(alloc: Global, morsels: &mut [Morsel], schema: &Schema) -> Result<(), AllocError>
    requires { AllByRecursion (HasAll schema.now) morsels.old }
    ensures { IfOk result (λ _. morsels.new ≡ map (reprojected_morsel schema.now) morsels.old) }
{
    let Some((first, rest)) = morsels.split_first_mut() else {
        return Ok(());
    };
    reproject_chunk(alloc, &mut first.chunk, schema)?;
    reproject_each(alloc, rest, schema)
}

/// The chunks with the numbers of their frames counted from a number on.
pub(crate) fn numbered_from(mut morsels: Vec<Morsel>, before: u32) -> Vec<Morsel>
    requires { ArePartsBelow (2 ^ 32) before morsels.items }
    ensures { result.items ≡ map (later before) morsels.items }
{
    number_each(morsels.as_mut_slice(), before);
    morsels
}

/// Counts the numbers of the chunks' frames from a number on.
fn number_each(morsels: &mut [Morsel], before: u32)
    requires { ArePartsBelow (2 ^ 32) before morsels.old }
    ensures { morsels.new ≡ map (later before) morsels.old }
{
    let Some((first, rest)) = morsels.split_first_mut() else {
        return;
    };
    first.part += before;
    number_each(rest, before);
}
