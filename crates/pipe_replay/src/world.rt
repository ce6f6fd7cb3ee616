//! Worlds of runs, and their steps.

ghost use Rattle.std.specs.Prelude.{◌≡◌, ℕ, ◌≤◌, ◌^◌, List, map, if◌then◌else◌, IfOk, OnOk};
ghost use Rattle.pipe_events.specs.Worlds.{start, after};
ghost use Rattle.pipe_events.specs.Decided.{is_allowed as allows, is_complete as completes};
ghost use Rattle.pipe_events.specs.EventValues.{event_value};
ghost use Rattle.pipe_replay.specs.KeptWorld.{world_in, stages_in, IsOf};
ghost use Rattle.pipe_replay.specs.Replayed.{IsPlayed};

use crate::applying::{apply_where_allowed, apply_while_allowed};
use crate::complete::is_complete;
use crate::lists::SortedLists;
use pipe_check::CheckedPlan;
use pipe_events::Event;
use pipe_frame::Row;
use pipe_rows::{KeyHasher, partition_count};
use pipe_world::{PlanTables, Progress, StagedPlan};
use std::alloc::{AllocError, Global};
use std::marker::Model;

/// The world of a run of a plan: the positions taken of each source, the rows on their way, the keys flagged, the
/// partitions flushed, the sides closed and the rows of each sink. It owns what its steps read of the plan beside its
/// nodes, and the lists of its sorts, each of which is made again only where rows came to the sort's input.
#[derive(Debug)]
pub struct World {
    tables: PlanTables,
    workers: u32,
    parts: u32,
    lists: SortedLists,
    progress: Progress,
}

impl Drop for World {
    fn drop(self) {
        let World {
            tables,
            workers: _,
            parts: _,
            lists,
            progress,
        } = self;
        drop(tables);
        drop(lists);
        drop(progress);
    }
}

impl Model for World {
    ghost use Rattle.pipe_replay.specs.KeptWorld.{KeptWorld};

    ghost Value = { KeptWorld };

    ghost view = { λ w. record { tables = w.tables; workers = w.workers; parts = w.parts; lists = w.lists; shown = w.progress } };
}

impl World {
    /// The world of a plan, for so many workers, in which nothing has happened.
    pub fn start(alloc: Global, plan: &CheckedPlan, workers: u32) -> Result<World, AllocError>
        requires { workers ≤ 2 ^ 31 }
        ensures start { IfOk result (λ world. world_in world ≡ start) }
        ensures plan { IfOk result (IsOf plan.now) }
        ensures workers { IfOk result (λ world. world.workers ≡ workers) }
    {
        let arena = plan.arena();
        let nodes = arena.nodes.len();
        let tables = PlanTables::of(alloc, arena, plan.root())?;
        let lists = SortedLists::new(alloc, nodes)?;
        let progress = Progress::start(alloc, nodes)?;
        Ok(World {
            tables,
            workers,
            parts: partition_count(workers),
            lists,
            progress,
        })
    }

    /// The rows that came to the root.
    pub fn root_bag(&self) -> &[Row]
        ensures { result.now ≡ (world_in self.now).bag self.now.tables.root }
    {
        self.progress.bag(self.tables.root as usize)
    }

    /// Whether all is taken, flushed and closed, and nothing is on its way.
    pub fn is_complete(&self, plan: &CheckedPlan) -> bool
        requires { IsOf plan.now self.now }
        ensures { (hash_of : List ℕ → ℕ) → let p = stages_in hash_of plan.now self.now in
            result ≡ completes p (world_in self.now) }
    {
        let stages = StagedPlan::of(plan.arena(), &self.tables, self.workers, self.parts);
        is_complete(&stages, &self.progress)
    }

    /// Applies an event where it is allowed, and tells whether it is.
    fn apply<H: KeyHasher>(
        &mut self,
        alloc: Global,
        plan: &CheckedPlan,
        hasher: &H,
        event: &Event,
    ) -> Result<bool, AllocError>
        requires { IsOf plan.now self.old }
        ensures allowed { let p = stages_in (H.hash_of hasher.now) plan.now self.old in
            let holds = allows p (world_in self.old) (event_value event.now) in
            IfOk result (λ allowed. allowed ≡ holds) }
        ensures world { let p = stages_in (H.hash_of hasher.now) plan.now self.old in
            let w = world_in self.old in
            let holds = allows p w (event_value event.now) in
            let next = if holds then after p w (event_value event.now) else w in
            OnOk result (world_in self.new ≡ next) }
        ensures plan { OnOk result (IsOf plan.now self.new) }
        ensures workers { self.new.workers ≡ self.old.workers }
        ensures parts { self.new.parts ≡ self.old.parts }
    {
        let stages = StagedPlan::of(plan.arena(), &self.tables, self.workers, self.parts);
        let allowed = apply_where_allowed(
            alloc,
            &stages,
            hasher,
            &mut self.lists,
            &mut self.progress,
            event,
        )?;
        Ok(allowed)
    }

    /// Applies events one after another, up to the first that isn't allowed where it stands; tells how many these are.
    pub(crate) fn apply_all<H: KeyHasher>(
        &mut self,
        alloc: Global,
        plan: &CheckedPlan,
        hasher: &H,
        events: &[Event],
    ) -> Result<usize, AllocError>
        requires plan { IsOf plan.now self.old }
        requires start { world_in self.old ≡ start }
        ensures played { let p = stages_in (H.hash_of hasher.now) plan.now self.new in
            let list = map event_value events.now in
            IfOk result (λ count. IsPlayed p list (world_in self.new) count) }
        ensures plan { OnOk result (IsOf plan.now self.new) }
        ensures workers { self.new.workers ≡ self.old.workers }
        ensures parts { self.new.parts ≡ self.old.parts }
    {
        let stages = StagedPlan::of(plan.arena(), &self.tables, self.workers, self.parts);
        let count = apply_while_allowed(
            alloc,
            &stages,
            hasher,
            &mut self.lists,
            &mut self.progress,
            events,
        )?;
        Ok(count)
    }
}

/// A world after an event, and whether the event is allowed; where it isn't, the world is as it was.
#[derive(Debug, Drop)]
pub struct StepAnswer {
    pub world: World,
    pub allowed: bool,
}

/// One event applied to a world of a plan, where it is allowed.
pub fn step<H: KeyHasher>(
    alloc: Global,
    plan: &CheckedPlan,
    hasher: &H,
    world: World,
    event: &Event,
) -> Result<StepAnswer, AllocError>
    requires plan { IsOf plan.now world }
    ensures allowed { let p = stages_in (H.hash_of hasher.now) plan.now world in
        let holds = allows p (world_in world) (event_value event.now) in
        IfOk result (λ answer. answer.allowed ≡ holds) }
    ensures world { let p = stages_in (H.hash_of hasher.now) plan.now world in
        let w = world_in world in
        let holds = allows p w (event_value event.now) in
        let next = if holds then after p w (event_value event.now) else w in
        IfOk result (λ answer. world_in answer.world ≡ next) }
    ensures plan { IfOk result (λ answer. IsOf plan.now answer.world) }
    ensures workers { IfOk result (λ answer. answer.world.workers ≡ world.workers) }
    ensures parts { IfOk result (λ answer. answer.world.parts ≡ world.parts) }
{
    let mut world = world;
    let allowed = world.apply(alloc, plan, hasher, event)?;
    Ok(StepAnswer { world, allowed })
}
