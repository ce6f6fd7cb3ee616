//! The positions of a source that were taken.

ghost use Rattle.std.specs.Prelude.{◌≡◌, ℕ, ◌<◌, false, [], ◌∷◌, ◌++◌, length, replicate, IfOk, OnOk};
ghost use Rattle.std.specs.List.{range_with_len};
ghost use Rattle.pipe_events.specs.Decided.{stands_in};
ghost use Rattle.pipe_plain.specs.Tables.{at_place};
ghost use Rattle.pipe_world.specs.Marks.{AreMarked};

use std::alloc::{AllocError, Global};
use std::marker::Model;

/// Positions in the order in which they were taken, and for each number whether it is one of them. Seen as the
/// positions.
#[derive(Debug)]
pub(crate) struct Positions {
    taken: Vec<u64>,
    marks: Vec<bool>,
}

impl Drop for Positions {
    fn drop(self) {
        let Positions { taken, marks } = self;
        drop(taken);
        drop(marks);
    }
}

impl Model for Positions {
    ghost use Rattle.std.specs.Prelude.{ℕ, List};
    ghost use Rattle.pipe_world.specs.Marks.{AreMarked};

    ghost Value = { List ℕ };

    ghost view = { λ p. p.taken.items };

    ghost invariant = { λ p. AreMarked p.taken.items p.marks.items };
}

/// Makes room for the mark of a place.
fn make_room(marks: &mut Vec<bool>, place: usize) -> Result<(), AllocError>
    ensures same { (k : ℕ) →
        at_place false marks.new.items k ≡ at_place false marks.old.items k }
    ensures room { OnOk result (place < length marks.new.items) }
{
    while marks.len() <= place {
        marks.push(false)?;
    }
    Ok(())
}

impl Positions {
    /// No position.
    fn new(alloc: Global) -> Positions
        ensures { result ≡ [] }
    {
        Positions {
            taken: Vec::new(alloc),
            marks: Vec::new(alloc),
        }
    }

    /// The positions, in the order in which they were taken.
    pub(crate) fn as_slice(&self) -> &[u64]
        ensures { result.now ≡ self.now }
    {
        self.taken.as_slice()
    }

    /// Whether a position is one of them.
    pub(crate) fn contains(&self, position: u64) -> bool
        ensures { result ≡ stands_in self.now position }
    {
        match self.marks.get(position as usize) {
            Some(mark) => *mark,
            None => false,
        }
    }

    /// One more.
    fn push(&mut self, position: u64) -> Result<(), AllocError>
        ensures { OnOk result (self.new ≡ self.old ++ position ∷ []) }
    {
        let place = position as usize;
        make_room(&mut self.marks, place)?;
        self.taken.push(position)?;
        self.marks[place] = true;
        Ok(())
    }

    /// So many more, from one on.
    pub(crate) fn push_range(&mut self, from: u32, amount: u32) -> Result<(), AllocError>
        ensures { OnOk result (self.new ≡ self.old ++ range_with_len from amount) }
    {
        for i in 0..amount {
            self.push(u64::from(from) + u64::from(i))?;
        }
        Ok(())
    }
}

/// The positions of so many sources of which nothing was taken.
pub(crate) fn no_positions(alloc: Global, sources: usize) -> Result<Vec<Positions>, AllocError>
    ensures { IfOk result (λ positions. positions.items ≡ replicate sources []) }
{
    let mut positions = Vec::new(alloc);
    for _ in 0..sources {
        positions.push(Positions::new(alloc))?;
    }
    Ok(positions)
}
