//! The next chunks of a source, whatever it is made of.

ghost use Rattle.std.specs.Prelude.{◌≡◌, ℕ, ◌+◌, ◌*◌, ◌^◌, ◌<◌, List, length, IfOk};
ghost use Rattle.pipe_ops.specs.Batches.{IsAnswer, index_after};
ghost use Rattle.pipe_source.specs.Supplies.{left_of, all_left, depth_of, deepest, schemas_of, source_text, IsAnswerFrom};

use crate::phys_source::{PhysSource, ReProjectSource, UnionSource};
use crate::reprojected::{numbered_from, reproject_answer};
use pipe_ops::{PExecutionContext, SourceResult};
use std::alloc::{AllocError, Global};

/// How many frames some sources have.
pub(crate) fn frames_of(sources: &[PhysSource]) -> u32
    requires { length (all_left sources.now) < 2 ^ 32 }
    ensures { result ≡ length (all_left sources.now) }
{
    match sources {
        [] => 0,
        [first, rest @ ..] => frames_in(first) + frames_of(rest),
    }
}

/// How many frames a source has.
#[cycle(frames)]
fn frames_in(source: &PhysSource) -> u32
    requires { length (left_of source.now) < 2 ^ 32 }
    ensures { result ≡ length (left_of source.now) }
{
    match source {
        PhysSource::Frame(_) => 1,
        PhysSource::Union(union) => union.frames(),
        PhysSource::ReProject(source) => reprojected_frames(source),
    }
}

/// How many frames a source has whose columns are brought into an order.
#[cycle(frames)]
fn reprojected_frames(source: &ReProjectSource) -> u32
    requires { length source.now.left < 2 ^ 32 }
    ensures { result ≡ length source.now.left }
{
    frames_in(&*source.source)
}

/// The next chunks of a source.
#[cycle(batches)]
pub(crate) fn source_batches(
    alloc: Global,
    source: &mut PhysSource,
    context: &PExecutionContext,
    next_index: &mut u64,
) -> Result<SourceResult, AllocError>
    requires { next_index.old + 4 * context.now.workers < 2 ^ 64 }
    ensures gives { IfOk result
        (IsAnswer context.now next_index.old (left_of source.old) (left_of source.new)) }
    ensures index { IfOk result (λ r. next_index.new ≡ index_after next_index.old r) }
    ensures schemas { schemas_of (left_of source.new) ≡ schemas_of (left_of source.old) }
    ensures depth { depth_of source.new ≡ depth_of source.old }
    ensures text { source_text source.new ≡ source_text source.old }
{
    match source {
        PhysSource::Frame(frame) => frame.next_chunks(alloc, context, next_index),
        PhysSource::Union(union) => union_batches(alloc, union, context, next_index),
        PhysSource::ReProject(source) => reproject_batches(alloc, source, context, next_index),
    }
}

/// The next chunks of a union.
#[cycle(batches)]
pub(crate) fn union_batches(
    alloc: Global,
    union: &mut UnionSource,
    context: &PExecutionContext,
    next_index: &mut u64,
) -> Result<SourceResult, AllocError>
    requires { next_index.old + 4 * context.now.workers < 2 ^ 64 }
    ensures gives { IfOk result
        (IsAnswer context.now next_index.old union.old.left union.new.left) }
    ensures index { IfOk result (λ r. next_index.new ≡ index_after next_index.old r) }
    ensures schemas { schemas_of union.new.left ≡ schemas_of union.old.left }
    ensures depth { union.new.depth ≡ union.old.depth }
{
    list_batches(alloc, union.sources.as_mut_slice(), 0, context, next_index)
}

/// The next chunks of a source whose columns are brought into an order.
#[cycle(batches)]
pub(crate) fn reproject_batches(
    alloc: Global,
    reproject: &mut ReProjectSource,
    context: &PExecutionContext,
    next_index: &mut u64,
) -> Result<SourceResult, AllocError>
    requires { next_index.old + 4 * context.now.workers < 2 ^ 64 }
    ensures gives { IfOk result
        (IsAnswer context.now next_index.old reproject.old.left reproject.new.left) }
    ensures index { IfOk result (λ r. next_index.new ≡ index_after next_index.old r) }
    ensures schemas { schemas_of reproject.new.left ≡ schemas_of reproject.old.left }
    ensures depth { reproject.new.depth ≡ reproject.old.depth }
{
    let answer = source_batches(alloc, &mut *reproject.source, context, next_index)?;
    reproject_answer(alloc, answer, &reproject.schema)
}

/// The next chunks of some sources, behind so many frames.
#[cycle(batches)]
fn list_batches(
    alloc: Global,
    sources: &mut [PhysSource],
    before: u32,
    context: &PExecutionContext,
    next_index: &mut u64,
) -> Result<SourceResult, AllocError>
    requires index { next_index.old + 4 * context.now.workers < 2 ^ 64 }
    requires few { before + length (all_left sources.old) < 2 ^ 32 }
    ensures gives { IfOk result
        (IsAnswerFrom before context.now next_index.old (all_left sources.old)
        (all_left sources.new)) }
    ensures index { IfOk result (λ r. next_index.new ≡ index_after next_index.old r) }
    ensures schemas { schemas_of (all_left sources.new) ≡ schemas_of (all_left sources.old) }
    ensures depth { deepest sources.new ≡ deepest sources.old }
{
    let Some((first, rest)) = sources.split_first_mut() else {
        return Ok(SourceResult::Finished);
    };
    match source_batches(alloc, first, context, next_index)? {
        SourceResult::GotMoreData(morsels) => {
            Ok(SourceResult::GotMoreData(numbered_from(morsels, before)))
        }
        SourceResult::Finished => {
            let passed = before + frames_in(first);
            Ok(list_batches(alloc, rest, passed, context, next_index)?)
        }
    }
}
