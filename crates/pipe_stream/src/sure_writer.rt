//! A writer in memory that never fails.

ghost use Rattle.std.specs.Prelude.{◌≡◌, ◌<◌, ◌+◌, [], length, Some, IfOk, option_map, nat_le};
ghost use Rattle.pipe_stream.specs.Outside.{Writes};
ghost use Rattle.pipe_stream.specs.Told.{sure_output, told_after};

use crate::outside::{RowWriter, WriteFailed};
use std::alloc::{AllocError, Global};
use std::marker::Model;

/// Whether more bytes fit behind those that are held.
fn fits(room: u32, held: usize, more: usize) -> bool
    ensures { result ≡ nat_le (held + more) room }
{
    held <= room as usize && more <= room as usize - held
}

/// A writer to memory that never fails, and tells what was written while there is room for it.
#[derive(Debug, Drop)]
pub struct SureWriter {
    bytes: Vec<u8>,
    room: u32,
    is_told: bool,
}

impl Model for SureWriter {
    ghost use Rattle.std.specs.Prelude.{◌≤◌, Some, None, vec_capacity, if◌then◌else◌};
    ghost use Rattle.pipe_stream.specs.Told.{Told};

    ghost Value = { Told };

    ghost view = { λ w. record { room = w.room; told = if w.is_told then Some w.bytes.items else None } };

    ghost invariant = { λ w. w.room ≤ vec_capacity w.bytes };
}

impl SureWriter {
    /// A writer that tells what was written while that is at most `room` bytes, the memory for which is taken here.
    pub fn new(alloc: Global, room: u32) -> Result<SureWriter, AllocError>
        ensures { IfOk result (λ w. w ≡ record { room = room; told = Some [] }) }
    {
        let bytes = Vec::with_capacity(alloc, room as usize)?;
        Ok(SureWriter {
            bytes,
            room,
            is_told: true,
        })
    }

    /// What was written, while it is told.
    pub fn bytes(&self) -> Option<&[u8]>
        ensures { option_map (λ bytes. bytes.now) result ≡ self.now.told }
    {
        if self.is_told {
            Some(self.bytes.as_slice())
        } else {
            None
        }
    }
}

impl RowWriter for SureWriter {
    ghost seen = { λ w. sure_output w };

    /// A piece is taken whole. One that doesn't fit ends what is told.
    fn write(&mut self, piece: &[u8]) -> Result<usize, WriteFailed>
        requires { 0 < length piece.now }
        ensures sure { result ≡ Ok (length piece.now) }
        ensures told { self.new ≡ told_after self.old piece.now }
        ensures writes { Writes piece.now (sure_output self.old) (sure_output self.new) }
    {
        self.is_told = self.is_told
            && fits(self.room, self.bytes.len(), piece.len())
            && self.bytes.extend_from_slice(piece).is_ok();
        Ok(piece.len())
    }
}
