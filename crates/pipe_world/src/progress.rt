//! How far a run came.

ghost use Rattle.std.specs.Prelude.{◌≡◌, ℕ, ◌<◌, [], ◌∷◌, length, IfOk, OnOk, Some};
ghost use Rattle.pipe_events.specs.Worlds.{start, closed_above, others};
ghost use Rattle.pipe_events.specs.Decided.{stands_in};
ghost use Rattle.pipe_plain.specs.Tables.{at_place};
ghost use Rattle.pipe_world.specs.Shown.{Shown, world_of, flag_in, IsFor};
ghost use Rattle.pipe_world.specs.Changes.{sends, sends_some, notes_taken, notes_flags, sets_flushed, took, flags, flushes_part, fills, hands_on};

use crate::blanks::empty_lists;
use crate::keys::{is_row_among, push_keys};
use crate::load::Load;
use crate::positions::{Positions, no_positions};
use pipe_frame::Row;
use pipe_plain::push_rows;
use pipe_schema::List;
use std::alloc::{AllocError, Global};
use std::marker::Model;

/// How far a run came: what was taken, is on its way, is flagged, flushed and closed, and the rows of each sink. Seen as
/// the world that this is.
#[derive(Debug)]
pub struct Progress {
    taken: Vec<Positions>,
    pending: Vec<Load>,
    flagged: Vec<List<Row>>,
    flushed: Vec<List<u64>>,
    closed: Vec<bool>,
    bags: Vec<List<Row>>,
}

impl Drop for Progress {
    fn drop(self) {
        let Progress {
            taken,
            pending,
            flagged,
            flushed,
            closed,
            bags,
        } = self;
        drop(taken);
        drop(pending);
        drop(flagged);
        drop(flushed);
        drop(closed);
        drop(bags);
    }
}

impl Model for Progress {
    ghost use Rattle.pipe_world.specs.Shown.{Shown};

    ghost Value = { Shown };

    ghost view = { λ w. record { taken = w.taken.items; pending = w.pending.items; flagged = w.flagged.items; flushed = w.flushed.items; closed = w.closed.items; bags = w.bags.items } };
}

/// A number, and then others.
fn with_first(alloc: Global, first: u64, numbers: &[u64]) -> Result<List<u64>, AllocError>
    ensures { IfOk result (λ all. all ≡ first ∷ numbers.now) }
{
    let mut all = List::new(alloc);
    all.push(first)?;
    for number in numbers {
        all.push(*number)?;
    }
    Ok(all)
}

/// Puts a load before others.
fn put_first(loads: &mut Vec<Load>, load: Load) -> Result<(), AllocError>
    ensures { OnOk result (loads.new.items ≡ load ∷ loads.old.items) }
{
    loads.insert(0, load)?;
    Ok(())
}

/// Drops the loads of a worker.
fn drop_loads(loads: &mut Vec<Load>, worker: u32)
    ensures { loads.new.items ≡ others worker loads.old.items }
{
    loads.retain(|load| load.worker() != worker);
}

impl Progress {
    /// That of so many nodes at which nothing has happened.
    #[tactic(auto, using(crate::proofs::BlankLists::blank_rules))]
    pub fn start(alloc: Global, nodes: usize) -> Result<Progress, AllocError>
        ensures start { IfOk result (λ world. world_of world ≡ start) }
        ensures nodes { IfOk result (IsFor nodes) }
    {
        Ok(Progress {
            taken: no_positions(alloc, nodes)?,
            pending: Vec::new(alloc),
            flagged: empty_lists(alloc, nodes)?,
            flushed: empty_lists(alloc, nodes)?,
            closed: vec![in alloc; false; nodes]?,
            bags: empty_lists(alloc, nodes)?,
        })
    }

    /// The positions of a node that were taken.
    pub fn taken(&self, n: usize) -> &[u64]
        ensures { result.now ≡ (world_of self.now).taken n }
    {
        match self.taken.get(n) {
            Some(positions) => positions.as_slice(),
            None => &[],
        }
    }

    /// Whether a position of a node was taken.
    pub fn is_taken(&self, n: usize, position: u64) -> bool
        ensures { result ≡ stands_in ((world_of self.now).taken n) position }
    {
        match self.taken.get(n) {
            Some(positions) => positions.contains(position),
            None => false,
        }
    }

    /// What is on its way.
    pub fn pending(&self) -> &[Load]
        ensures { result.now ≡ (world_of self.now).pending }
    {
        self.pending.as_slice()
    }

    /// Whether a key is flagged at a node.
    pub fn is_flagged(&self, k: usize, key: &Row) -> bool
        ensures { result ≡ (world_of self.now).flag k key.now }
    {
        match self.flagged.get(k) {
            Some(keys) => is_row_among(key, keys.as_slice()),
            None => false,
        }
    }

    /// The partitions of a node that were flushed.
    pub fn flushed(&self, n: usize) -> &[u64]
        ensures { result.now ≡ (world_of self.now).flushed n }
    {
        match self.flushed.get(n) {
            Some(parts) => parts.as_slice(),
            None => &[],
        }
    }

    /// Whether the side above a node is closed.
    pub fn is_closed(&self, n: usize) -> bool
        ensures { result ≡ (world_of self.now).closed n }
    {
        match self.closed.get(n) {
            Some(closed) => *closed,
            None => false,
        }
    }

    /// The rows of the sink above a node.
    pub fn bag(&self, n: usize) -> &[Row]
        ensures { result.now ≡ (world_of self.now).bag n }
    {
        match self.bags.get(n) {
            Some(rows) => rows.as_slice(),
            None => &[],
        }
    }

    /// The rows of the sinks above all nodes.
    pub fn bags(&self) -> &[List<Row>]
        ensures { at_place [] result.now ≡ (world_of self.now).bag }
    {
        self.bags.as_slice()
    }

    /// Rows are on their way.
    fn send(&mut self, load: Load) -> Result<(), AllocError>
        ensures world { OnOk result (world_of self.new ≡ sends load (world_of self.old)) }
        ensures nodes { (n : ℕ) → IsFor n self.old → OnOk result (IsFor n self.new) }
    {
        put_first(&mut self.pending, load)
    }

    /// Positions of a source are taken.
    fn note_taken(&mut self, source: usize, from: u32, amount: u32) -> Result<(), AllocError>
        requires within { source < length self.old.taken }
        ensures world { let after = notes_taken source from amount (world_of self.old) in
            OnOk result (world_of self.new ≡ after) }
        ensures nodes { (n : ℕ) → IsFor n self.old → OnOk result (IsFor n self.new) }
    {
        self.taken[source].push_range(from, amount)
    }

    /// Positions of a source are taken, and their rows are on their way.
    pub fn take(
        &mut self,
        worker: u32,
        source: usize,
        from: u32,
        amount: u32,
        rows: List<Row>,
    ) -> Result<(), AllocError>
        requires within { source < length self.old.taken }
        ensures world { let after = took worker source from amount rows (world_of self.old) in
            OnOk result (world_of self.new ≡ after) }
        ensures nodes { (n : ℕ) → IsFor n self.old → OnOk result (IsFor n self.new) }
    {
        self.note_taken(source, from, amount)?;
        self.send(Load::new(worker, source, rows))
    }

    /// Keys are flagged at a join.
    #[tactic(auto, using(crate::proofs::KeyLemmas::flag_rules))]
    fn note_flags(&mut self, join: usize, keys: &[Row]) -> Result<(), AllocError>
        requires within { join < length self.old.flagged }
        ensures world { let after = notes_flags join keys.now (world_of self.old) in
            OnOk result (world_of self.new ≡ after) }
        ensures nodes { (n : ℕ) → IsFor n self.old → OnOk result (IsFor n self.new) }
    {
        push_keys(&mut self.flagged[join], keys)
    }

    /// Rows are on their way, if there are some.
    fn send_some(&mut self, worker: u32, node: usize, rows: List<Row>) -> Result<(), AllocError>
        ensures world { let after = sends_some worker node rows (world_of self.old) in
            OnOk result (world_of self.new ≡ after) }
        ensures nodes { (n : ℕ) → IsFor n self.old → OnOk result (IsFor n self.new) }
    {
        if rows.len() > 0 {
            self.send(Load::new(worker, node, rows))?;
        }
        Ok(())
    }

    /// Keys are flagged at a join, and the rows that this gives are on their way.
    pub fn flag(
        &mut self,
        worker: u32,
        join: usize,
        keys: &[Row],
        rows: List<Row>,
    ) -> Result<(), AllocError>
        requires within { join < length self.old.flagged }
        ensures world { let after = flags worker join keys.now rows (world_of self.old) in
            OnOk result (world_of self.new ≡ after) }
        ensures nodes { (n : ℕ) → IsFor n self.old → OnOk result (IsFor n self.new) }
    {
        self.note_flags(join, keys)?;
        self.send_some(worker, join, rows)
    }

    /// These partitions of a join are flushed.
    fn set_flushed(&mut self, join: usize, parts: List<u64>)
        requires within { join < length self.old.flushed }
        ensures world { world_of self.new ≡ sets_flushed join parts (world_of self.old) }
        ensures nodes { (n : ℕ) → IsFor n self.old → IsFor n self.new }
    {
        self.flushed[join] = parts;
    }

    /// A partition is flushed, and its rows are on their way.
    pub fn flush(
        &mut self,
        alloc: Global,
        worker: u32,
        join: usize,
        part: u32,
        rows: List<Row>,
    ) -> Result<(), AllocError>
        requires within { join < length self.old.flushed }
        ensures world { let after = flushes_part worker join part rows (world_of self.old) in
            OnOk result (world_of self.new ≡ after) }
        ensures nodes { (n : ℕ) → IsFor n self.old → OnOk result (IsFor n self.new) }
    {
        let parts = with_first(alloc, u64::from(part), self.flushed(join))?;
        self.set_flushed(join, parts);
        self.send(Load::new(worker, join, rows))
    }

    /// The side above a node is closed.
    pub fn close(&mut self, n: usize)
        requires within { n < length self.old.closed }
        ensures world { world_of self.new ≡ closed_above (Some n) (world_of self.old) }
        ensures nodes { (n : ℕ) → IsFor n self.old → IsFor n self.new }
    {
        self.closed[n] = true;
    }

    /// Rows come to the sink above a node.
    pub fn fill(&mut self, n: usize, rows: &[Row]) -> Result<(), AllocError>
        requires within { n < length self.old.bags }
        ensures world { OnOk result (world_of self.new ≡ fills n rows.now (world_of self.old)) }
        ensures nodes { (n : ℕ) → IsFor n self.old → OnOk result (IsFor n self.new) }
    {
        push_rows(&mut self.bags[n], rows)
    }

    /// Nothing of a worker is on its way any more.
    pub fn hand_on(&mut self, worker: u32)
        ensures world { world_of self.new ≡ hands_on worker (world_of self.old) }
        ensures nodes { (n : ℕ) → IsFor n self.old → IsFor n self.new }
    {
        drop_loads(&mut self.pending, worker);
    }
}
