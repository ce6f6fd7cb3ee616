//! Byte strings in a list of one owner, or in a part of a list that several owners share.

ghost use Rattle.std.specs.Prelude.{◌≡◌, ◌<◌, ◌≤◌, ◌+◌, ◌++◌, [], ◌∷◌, length, map, take, drop, slice_index_or, IfOk, OnOk, OnErr};
ghost use Rattle.pipe_column.specs.Column.{values_at};

use crate::bytes_list::BytesList;
use crate::piece_part::PiecePart;
use crate::place::Place;
use std::alloc::{AllocError, Global};
use std::marker::Model;
use std::mem::replace;
use std::sync::Arc;

/// Where byte strings stand.
#[derive(Debug, Drop)]
pub(crate) enum HeldPieces {
    Own(BytesList),
    Shared(PiecePart),
}

/// Byte strings in a list of their own, or in a part of one that is shared and copied before a change; seen as a list.
#[derive(Debug, Drop)]
pub(crate) struct PieceBuffer {
    held: HeldPieces,
}

impl Model for PieceBuffer {
    ghost use Rattle.std.specs.Prelude.{ℕ, List};
    ghost use Rattle.pipe_column.specs.Buffer.{held_pieces};

    ghost Value = { List (List ℕ) };

    ghost view = { λ p. held_pieces p.held };
}

impl PieceBuffer {
    /// No byte string, which takes no memory.
    pub(crate) fn new(alloc: Global) -> PieceBuffer
        ensures { result ≡ [] }
    {
        PieceBuffer::from_list(BytesList::new(alloc))
    }

    /// The byte strings of a list.
    pub(crate) fn from_list(list: BytesList) -> PieceBuffer
        ensures { result ≡ list }
    {
        PieceBuffer {
            held: HeldPieces::Own(list),
        }
    }

    /// The allocator of the byte strings.
    pub(crate) fn allocator(&self) -> Global {
        match &self.held {
            HeldPieces::Own(list) => list.allocator(),
            HeldPieces::Shared(part) => part.allocator(),
        }
    }

    /// How many byte strings there are.
    pub(crate) fn len(&self) -> usize
        ensures { result ≡ length self.now }
    {
        match &self.held {
            HeldPieces::Own(list) => list.len(),
            HeldPieces::Shared(part) => part.len(),
        }
    }

    /// The byte string at a place.
    pub(crate) fn get(&self, i: usize) -> &[u8]
        requires { i < length self.now }
        ensures { result.now ≡ slice_index_or self.now i [] }
    {
        match &self.held {
            HeldPieces::Own(list) => list.get(i),
            HeldPieces::Shared(part) => part.get(i),
        }
    }

    /// Lets copies and parts of the byte strings share their memory from now on.
    pub(crate) fn share(&mut self) -> Result<(), AllocError>
        ensures { self.new ≡ self.old }
    {
        let alloc = self.allocator();
        let list = match &mut self.held {
            HeldPieces::Own(list) => replace(list, BytesList::new(alloc)),
            HeldPieces::Shared(_) => return Ok(()),
        };
        match Arc::new(alloc, list) {
            Ok(all) => {
                self.held = HeldPieces::Shared(PiecePart::whole(all));
                Ok(())
            }
            Err(refused) => {
                self.held = HeldPieces::Own(refused.value);
                Err(AllocError)
            }
        }
    }

    /// Keeps so many byte strings, from the front.
    pub(crate) fn truncate(&mut self, count: usize)
        ensures { self.new ≡ take count self.old }
    {
        match &mut self.held {
            HeldPieces::Own(list) => list.truncate(count),
            HeldPieces::Shared(part) => part.truncate(count),
        }
    }

    /// A list of the byte strings.
    fn copied_list(&self) -> Result<BytesList, AllocError>
        ensures { IfOk result (λ list. list ≡ self.now) }
    {
        match &self.held {
            HeldPieces::Own(list) => list.copied(),
            HeldPieces::Shared(part) => part.copied(),
        }
    }

    /// Puts a byte string at the end.
    pub(crate) fn push(&mut self, piece: &[u8]) -> Result<(), AllocError>
        ensures ok { OnOk result (self.new ≡ self.old ++ piece.now ∷ []) }
        ensures err { OnErr result (self.new ≡ self.old) }
    {
        if let HeldPieces::Own(list) = &mut self.held {
            return list.push(piece);
        }
        let mut list = self.copied_list()?;
        list.push(piece)?;
        self.held = HeldPieces::Own(list);
        Ok(())
    }

    /// Puts those of another list at the end.
    fn append_list(&mut self, further: &BytesList) -> Result<(), AllocError>
        ensures ok { OnOk result (self.new ≡ self.old ++ further.now) }
        ensures err { OnErr result (self.new ≡ self.old) }
    {
        if let HeldPieces::Own(list) = &mut self.held {
            return list.append(further);
        }
        let mut list = self.copied_list()?;
        list.append(further)?;
        self.held = HeldPieces::Own(list);
        Ok(())
    }

    /// Puts other byte strings at the end.
    pub(crate) fn append(&mut self, other: &PieceBuffer) -> Result<(), AllocError>
        ensures ok { OnOk result (self.new ≡ self.old ++ other.now) }
        ensures err { OnErr result (self.new ≡ self.old) }
    {
        match &other.held {
            HeldPieces::Own(further) => self.append_list(further),
            HeldPieces::Shared(part) => {
                let further = part.copied()?;
                self.append_list(&further)
            }
        }
    }

    /// So many byte strings from a place on: without a copy where they are shared.
    pub(crate) fn slice(&self, from: usize, count: usize) -> Result<PieceBuffer, AllocError>
        requires { from + count ≤ length self.now }
        ensures { IfOk result (λ part. part ≡ take count (drop from self.now)) }
    {
        let held = match &self.held {
            HeldPieces::Own(list) => HeldPieces::Own(list.slice(from, count)?),
            HeldPieces::Shared(part) => HeldPieces::Shared(part.slice(from, count)?),
        };
        Ok(PieceBuffer { held })
    }

    /// A copy: without copying the bytes where they are shared.
    pub(crate) fn copied(&self) -> Result<PieceBuffer, AllocError>
        ensures { IfOk result (λ copy. copy ≡ self.now) }
    {
        self.slice(0, self.len())
    }

    /// The byte strings at these places, and an empty one where there is none.
    pub(crate) fn take_at<P: Place>(
        &self,
        alloc: Global,
        places: &[P],
    ) -> Result<PieceBuffer, AllocError>
        ensures { IfOk result (λ taken. taken ≡ values_at self.now [] (map P.place places.now)) }
    {
        let mut taken = BytesList::with_room(alloc, places.len())?;
        for place in places {
            match place.place() {
                Some(i) if i < self.len() => taken.push(self.get(i))?,
                _ => taken.push(&[])?,
            }
        }
        Ok(PieceBuffer::from_list(taken))
    }
}
