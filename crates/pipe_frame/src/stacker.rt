//! The streaming vertical stacker: gathers frames until they are large enough to be given out as one.

ghost use Rattle.std.specs.Prelude.{◌≡◌, ℕ, ◌<◌, ◌+◌, ◌++◌, ◌^◌, IfOk, IfErr, OnErr, OnOk, IfSome, Some, None};
ghost use Rattle.pipe_frame.specs.Sizes.{frame_size};
ghost use Rattle.pipe_frame.specs.Stacker.{size_or_none, first_out, second_out, holding_more, after_add, KeepsRows};

use crate::data_frame::DataFrame;
use std::alloc::AllocError;
use std::marker::Model;

/// The size of a chunk in bytes that a stacker aims at by custom.
const DEFAULT_LIMIT: u64 = 4_194_304;

/// What a stacker gives out at one call, in this order.
#[derive(Debug, Drop)]
pub struct Stacked {
    pub first: Option<DataFrame>,
    pub second: Option<DataFrame>,
}

/// Gathers frames of one schema, seen as its limit and what it holds.
#[derive(Debug)]
pub struct StreamingVstacker {
    limit: u64,
    held: Option<DataFrame>,
    held_size: u64,
}

impl Drop for StreamingVstacker {
    fn drop(self) {
        let StreamingVstacker {
            limit: _,
            held,
            held_size: _,
        } = self;
        drop(held);
    }
}

impl Model for StreamingVstacker {
    ghost use Rattle.std.specs.Prelude.{◌≡◌};
    ghost use Rattle.pipe_frame.specs.Stacker.{Holding, size_or_none};

    ghost Value = { Holding };

    ghost view = { λ s. record { limit = s.limit; held = s.held } };

    ghost invariant = { λ s. s.held_size ≡ size_or_none s.held };
}

impl StreamingVstacker {
    /// A stacker that holds nothing, and gives out what it holds where that is larger than so many bytes.
    pub fn new(output_chunk_size: u64) -> StreamingVstacker
        ensures { result ≡ record { limit = output_chunk_size; held = None } }
    {
        StreamingVstacker {
            limit: output_chunk_size,
            held: None,
            held_size: 0,
        }
    }

    /// A stacker that holds nothing, with the limit that is used by custom.
    pub fn default() -> StreamingVstacker
        ensures { result ≡ record { limit = 4194304; held = None } }
    {
        StreamingVstacker::new(DEFAULT_LIMIT)
    }

    /// Adds a frame of the schema of what is held. Before a frame larger than a quarter of the limit, what is held is
    /// given out; afterwards, what is held is given out where it is larger than the limit. Where there is no memory,
    /// the frame comes back and nothing has changed.
    pub fn add(&mut self, next_frame: DataFrame) -> Result<Stacked, (DataFrame, AllocError)>
        requires schema { IfSome self.old.held (λ held. held.schema ≡ next_frame.schema) }
        requires fits { size_or_none self.old.held + frame_size next_frame < 2 ^ 64 }
        ensures first { IfOk result (λ out. out.first ≡ first_out self.old next_frame) }
        ensures second { IfOk result (λ out. out.second ≡ second_out self.old next_frame) }
        ensures held { OnOk result (self.new ≡ after_add self.old next_frame) }
        ensures same_rows { IfOk result (λ out. KeepsRows self.old next_frame out self.new) }
        ensures back { IfErr result (λ e. e.0 ≡ next_frame) }
        ensures unchanged { OnErr result (self.new ≡ self.old) }
    {
        let next_size = next_frame.estimated_size();
        let first = if self.limit / 4 < next_size {
            self.replace(next_frame, next_size)
        } else {
            if let Err(refused) = self.hold(next_frame, next_size) {
                return Err(refused);
            }
            None
        };
        let second = if self.limit < self.held_size {
            self.give()
        } else {
            None
        };
        Ok(Stacked { first, second })
    }

    /// What is held, none exactly where nothing is.
    pub fn finish(self) -> Option<DataFrame>
        ensures { result ≡ self.held }
    {
        let StreamingVstacker {
            limit: _,
            held,
            held_size: _,
        } = self;
        held
    }

    /// Gives out what is held.
    fn give(&mut self) -> Option<DataFrame>
        ensures given { result ≡ self.old.held }
        ensures nothing { self.new ≡ record self.old { held = None } }
    {
        self.held_size = 0;
        self.held.take()
    }

    /// Holds a frame in the place of what is held, which it gives out.
    fn replace(&mut self, next_frame: DataFrame, next_size: u64) -> Option<DataFrame>
        requires { next_size ≡ frame_size next_frame }
        ensures given { result ≡ self.old.held }
        ensures held { self.new ≡ record self.old { held = Some next_frame } }
    {
        let given = self.give();
        self.held = Some(next_frame);
        self.held_size = next_size;
        given
    }

    /// Puts a frame behind what is held.
    fn hold(&mut self, next_frame: DataFrame, next_size: u64) -> Result<(), (DataFrame, AllocError)>
        requires schema { IfSome self.old.held (λ held. held.schema ≡ next_frame.schema) }
        requires size { next_size ≡ frame_size next_frame }
        requires fits { size_or_none self.old.held + next_size < 2 ^ 64 }
        ensures held { OnOk result (self.new ≡ holding_more self.old next_frame) }
        ensures back { IfErr result (λ e. e.0 ≡ next_frame) }
        ensures unchanged { OnErr result (self.new ≡ self.old) }
    {
        match &mut self.held {
            Some(held) => {
                if let Err(error) = held.vstack_mut(&next_frame) {
                    return Err((next_frame, error));
                }
            }
            None => self.held = Some(next_frame),
        }
        self.held_size += next_size;
        Ok(())
    }
}
