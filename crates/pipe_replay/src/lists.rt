//! The lists of sorts, which are kept from one take to the next: a list is made again only where rows came to the
//! sort's input since.

ghost use Rattle.std.specs.Prelude.{◌≡◌, ℕ, ◌<◌, List, None, Some, length, set, IfOk, OnOk};
ghost use Rattle.pipe_schema.specs.Rows.{Row};
ghost use Rattle.pipe_events.specs.Stages.{Stages};
ghost use Rattle.pipe_events.specs.Worlds.{source_rows};
ghost use Rattle.pipe_world.specs.Staged.{staged};
ghost use Rattle.pipe_world.specs.Shown.{world_of};
ghost use Rattle.pipe_replay.specs.KeptLists.{AreKept, list_at, is_made_of, listed, source_by};

use crate::sorting::sliced_list;
use pipe_frame::Row;
use pipe_schema::List;
use pipe_world::{Progress, Stage, StagedPlan};
use std::alloc::{AllocError, Global};
use std::marker::Model;

/// The list of a sort, and of how many rows of its input it was made.
#[derive(Debug, Drop)]
pub(crate) struct SortedList {
    count: usize,
    rows: List<Row>,
}

/// For each node of a plan its list, if it is a sort whose list was made.
#[derive(Debug)]
pub(crate) struct SortedLists {
    lists: Vec<Option<SortedList>>,
}

impl Drop for SortedLists {
    fn drop(self) {
        let SortedLists { lists } = self;
        drop(lists);
    }
}

impl Model for SortedLists {
    ghost use Rattle.std.specs.Prelude.{List, Option};
    ghost use Rattle.pipe_replay.specs.declared.lists.SortedList.{SortedList};

    ghost Value = { List (Option SortedList) };

    ghost view = { λ l. l.lists.items };
}

impl SortedLists {
    /// No list of so many nodes.
    #[tactic(auto, using(crate::proofs::KeptLemmas::none_rules))]
    pub(crate) fn new(alloc: Global, nodes: usize) -> Result<SortedLists, AllocError>
        ensures { (p : Stages) (bag : ℕ → List Row) → p.size ≡ nodes →
            IfOk result (AreKept p bag) }
    {
        let mut lists = Vec::new(alloc);
        for _ in 0..nodes {
            lists.push(None)?;
        }
        Ok(SortedLists { lists })
    }

    /// Whether the list of a node was made of so many rows.
    fn is_made_of(&self, n: usize, count: usize) -> bool
        ensures { result ≡ is_made_of (list_at self.now n) count }
    {
        match self.lists.get(n) {
            Some(Some(list)) => list.count == count,
            _ => false,
        }
    }

    /// The list of a node, nothing where there is none.
    fn rows(&self, n: usize) -> &[Row]
        ensures { result.now ≡ listed (list_at self.now n) }
    {
        match self.lists.get(n) {
            Some(Some(list)) => list.rows.as_slice(),
            _ => &[],
        }
    }

    /// Keeps the list of a node.
    fn put(&mut self, n: usize, list: SortedList)
        requires { n < length self.old }
        ensures { self.new ≡ set self.old n (Some list) }
    {
        self.lists[n] = Some(list);
    }

    /// Makes the list of a node, if it is a sort whose list isn't there, or was made of fewer rows.
    #[tactic(auto, using(crate::proofs::KeptLemmas::kept_rules))]
    pub(crate) fn update(
        &mut self,
        alloc: Global,
        plan: &StagedPlan,
        world: &Progress,
        n: usize,
    ) -> Result<(), AllocError>
        requires within { n < length self.old }
        requires kept { AreKept (staged plan.now) (world_of world.now).bag self.old }
        ensures kept { let bag = (world_of world.now).bag in
            OnOk result (AreKept (staged plan.now) bag self.new) }
        ensures rows { let stage = (staged plan.now).stage n in
            let rows = source_rows (world_of world.now).bag stage in
            OnOk result (source_by stage (listed (list_at self.new n)) ≡ rows) }
    {
        match plan.stage(n) {
            Stage::Scan(_) => Ok(()),
            Stage::Each { .. } => Ok(()),
            Stage::Union(_) => Ok(()),
            Stage::Sort {
                input,
                schema,
                by,
                options,
            } => {
                let bag = world.bag(input as usize);
                if self.is_made_of(n, bag.len()) {
                    return Ok(());
                }
                let rows = sliced_list(alloc, schema, by.as_slice(), options, bag)?;
                let count = bag.len();
                self.put(n, SortedList { count, rows });
                Ok(())
            }
            Stage::Joined(_) => Ok(()),
        }
    }

    /// The rows of a source, where those of a sort are its list.
    pub(crate) fn source_rows<'a>(&'a self, plan: &'a StagedPlan, n: usize) -> &'a [Row]
        ensures { let list = listed (list_at self.now n) in
            result.now ≡ source_by ((staged plan.now).stage n) list }
    {
        match plan.stage(n) {
            Stage::Scan(rows) => rows,
            Stage::Each { .. } => &[],
            Stage::Union(_) => &[],
            Stage::Sort { .. } => self.rows(n),
            Stage::Joined(_) => &[],
        }
    }
}
