//! How the function operator cuts a chunk into pieces.

ghost use Rattle.std.specs.Prelude.{◌≡◌, ◌≤◌, [], IfOk};
ghost use Rattle.pipe_ops.specs.Offsets.{Adjoin};
ghost use Rattle.pipe_source.specs.Cutting.{begun_pieces, IsFirst, is_none_left, next_size, next_pieces};

use pipe_ops::{combine_offsets, split_offsets};
use std::alloc::{AllocError, Global};
use std::collections::VecDeque;

/// How many rows a piece has at first.
const FIRST_SIZE: u32 = 128;

/// The fewest rows that a size stands for.
const LEAST_SIZE: u32 = 5;

/// The most rows that a size stands for.
const GREATEST_SIZE: u32 = 2_147_483_648;

/// The size of pieces, and those that are left of a chunk that is begun.
#[derive(Drop)]
pub struct Cutting {
    /// How many rows a piece has, before it is joined with others.
    pub size: u32,
    /// The pieces that are left, each with its first row and how many rows it has.
    pub pieces: VecDeque<(u32, u32)>,
    ghost size_in: { (5 ≤ size) × (size ≤ 2147483648) },
}

impl Cutting {
    /// Nothing is begun, at the first size.
    pub fn new(alloc: Global) -> Cutting
        ensures size { result.size ≡ 128 }
        ensures pieces { result.pieces.items ≡ [] }
    {
        Cutting {
            size: FIRST_SIZE,
            pieces: VecDeque::new(alloc),
        }
    }

    /// Nothing is begun, at the same size.
    pub fn split(&self) -> Cutting
        ensures size { result.size ≡ self.now.size }
        ensures pieces { result.pieces.items ≡ [] }
    {
        Cutting {
            size: self.size,
            pieces: VecDeque::new(*self.pieces.allocator()),
        }
    }

    /// The next piece of a chunk of so many rows, none where it is to be taken whole.
    pub fn next_piece(
        &mut self,
        alloc: Global,
        height: u32,
    ) -> Result<Option<(u32, u32)>, AllocError>
        ensures size { self.new.size ≡ self.old.size }
        ensures first { IfOk result
            (λ p. IsFirst (begun_pieces self.old.size height self.old.pieces.items) p
            self.new.pieces.items) }
    {
        if self.pieces.is_empty() {
            let count = height / self.size;
            if count <= 1 {
                return Ok(None);
            }
            self.pieces = split_offsets(alloc, height, count)?;
        }
        Ok(self.pieces.pop_front())
    }

    /// Whether no piece is left.
    pub fn is_done(&self) -> bool
        ensures { result ≡ is_none_left self.now.pieces.items }
    {
        self.pieces.is_empty()
    }

    /// Goes on with other sizes, after a piece of a chunk of so many rows made so many.
    pub fn adapt(&mut self, made: u64, height: u32, aim: u64)
        requires { Adjoin self.old.pieces.items }
        ensures size { self.new.size ≡ next_size self.old.size made height aim }
        ensures pieces { self.new.pieces.items ≡ next_pieces made height aim self.old.pieces.items }
    {
        let (made, height, aim) = (made as u128, height as u128, aim as u128);
        if 2 * made < height && 2 * made < aim {
            self.size = self.size.saturating_mul(2).min(GREATEST_SIZE);
            combine_offsets(&mut self.pieces);
        } else if 4 * made > height || made > 2 * aim {
            self.size = (self.size / 2).max(LEAST_SIZE);
        }
    }
}
