//! The law of sources.

ghost use Rattle.pipe_source.specs.Law.{GivenAndLeftAreAll, ChunksHaveRows};

/// The law of sources: the rows that a source gives, chunk by chunk in order, and then what is left of it, are the
/// rows that were left before, for every number of chunks and of rows a chunk; and no chunk is empty or too long.
pub fn batches_are_the_rows()
    ensures all { GivenAndLeftAreAll }
    ensures some { ChunksHaveRows }
{}
