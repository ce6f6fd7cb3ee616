//! The cutting of a plan into branches, from the root downwards.

ghost use Rattle.std.specs.Prelude.{◌≡◌, ◌<◌, ◌^◌, [], ◌∷◌, true, map, length, IfOk, OnOk};
ghost use Rattle.std.specs.List.{list_all, flat_map};
ghost use Rattle.pipe_plan.specs.Node.{node_of};
ghost use Rattle.pipe_driver.specs.Branches.{path_from, paths_of, plan_paths, numbered_paths, join_paths, union_paths, is_scan_at, through};
ghost use Rattle.pipe_driver.specs.Climbing.{start_of, HasRoom, is_step_in, put_step, drop_step, take_path, take_paths, goes_down, is_down};

use crate::above::{Above, Step};
use crate::branch::Branch;
use crate::climbing::branch_from;
use crate::naming::Naming;
use crate::turn::{Turn, are_scans, turn_at_node, union_inputs};
use pipe_plan::IR;
use pipe_schema::List;
use std::alloc::{AllocError, Global};
use std::marker::Model;

/// How far a plan is cut: the steps above, the sinks that were named, and the branches so far.
struct Cutter {
    above: Above,
    naming: Naming,
    branches: List<Branch>,
}

impl Drop for Cutter {
    fn drop(self) {
        let Cutter {
            above,
            naming,
            branches,
        } = self;
        drop(above);
        drop(naming);
        drop(branches);
    }
}

impl Model for Cutter {
    ghost use Rattle.pipe_driver.specs.Climbing.{Cutting};

    ghost Value = { Cutting };

    ghost view = { λ c. record { above = c.above; named = c.naming; branches = c.branches } };
}

impl Cutter {
    /// Nothing is cut of a plan of so many nodes.
    fn new(alloc: Global, nodes: usize) -> Result<Cutter, AllocError>
        requires { nodes < 2 ^ 30 }
        ensures { IfOk result (λ cutter. cutter ≡ start_of nodes) }
    {
        let naming = Naming::new(alloc, nodes)?;
        Ok(Cutter {
            above: Above::new(alloc),
            naming,
            branches: List::new(alloc),
        })
    }

    /// The branches so far.
    fn into_branches(self) -> List<Branch>
        ensures { result ≡ self.branches }
    {
        let Cutter {
            above,
            naming,
            branches,
        } = self;
        drop(above);
        drop(naming);
        branches
    }

    /// Puts a step below those that stand above.
    fn push(&mut self, step: Step) -> Result<(), AllocError>
        ensures { OnOk result (self.new ≡ put_step step self.old) }
    {
        self.above.push(step)?;
        Ok(())
    }

    /// Takes the nearest step away.
    fn pop(&mut self)
        ensures { self.new ≡ drop_step self.old }
    {
        self.above.pop();
    }

    /// Adds the branch that begins at a source.
    fn begin(&mut self, alloc: Global, source: u32) -> Result<(), AllocError>
        requires height { length self.old.above < 2 ^ 32 }
        requires there { list_all (is_step_in self.old.named.nodes) self.old.above ≡ true }
        ensures { OnOk result (self.new ≡ take_path self.old (path_from source)) }
    {
        let branch = branch_from(alloc, &mut self.above, &mut self.naming, source)?;
        self.branches.push(branch)?;
        Ok(())
    }
}

/// Takes the paths of a node, which go through what stands above it.
#[cycle(visit)]
fn visit(alloc: Global, nodes: &[IR], cutter: &mut Cutter, n: u32) -> Result<(), AllocError>
    requires down { goes_down (map node_of nodes.now) n ≡ true }
    requires room { HasRoom cutter.old n }
    ensures { OnOk result
        (cutter.new ≡ take_paths cutter.old (paths_of (map node_of nodes.now) n)) }
{
    let node = &nodes[n as usize];
    match turn_at_node(node) {
        Turn::Begin => {
            cutter.begin(alloc, n)?;
            Ok(())
        }
        Turn::Through(input) => {
            visit_below(alloc, nodes, cutter, Step::Operator(n), input)?;
            Ok(())
        }
        Turn::Unite => {
            visit_union(alloc, nodes, cutter, n, union_inputs(node))?;
            Ok(())
        }
        Turn::Sort(input) => {
            let step = Step::Sort {
                node: n,
                is_passed: false,
            };
            visit_below(alloc, nodes, cutter, step, input)?;
            Ok(())
        }
        Turn::Join { built, probed } => {
            visit_join(alloc, nodes, cutter, n, built, probed)?;
            Ok(())
        }
    }
}

/// Takes the paths of a node under one more step.
#[cycle(visit)]
fn visit_below(
    alloc: Global,
    nodes: &[IR],
    cutter: &mut Cutter,
    step: Step,
    input: u32,
) -> Result<(), AllocError>
    requires down { goes_down (map node_of nodes.now) input ≡ true }
    requires room { HasRoom (put_step step cutter.old) input }
    ensures { let paths = paths_of (map node_of nodes.now) input in
        OnOk result (cutter.new ≡ drop_step (take_paths (put_step step cutter.old) paths)) }
{
    cutter.push(step)?;
    visit(alloc, nodes, cutter, input)?;
    cutter.pop();
    Ok(())
}

/// Takes the paths of a join: first those of the side that is built, then those that probe it.
#[cycle(visit)]
fn visit_join(
    alloc: Global,
    nodes: &[IR],
    cutter: &mut Cutter,
    n: u32,
    built: u32,
    probed: u32,
) -> Result<(), AllocError>
    requires room { HasRoom cutter.old n }
    requires built { is_down (map node_of nodes.now) n built ≡ true }
    requires probed { is_down (map node_of nodes.now) n probed ≡ true }
    ensures { let paths = paths_of (map node_of nodes.now) in
        OnOk result
        (cutter.new ≡ take_paths cutter.old (join_paths n (paths built) (paths probed))) }
{
    visit_below(alloc, nodes, cutter, Step::Build(n), built)?;
    visit_below(alloc, nodes, cutter, Step::Operator(n), probed)?;
    Ok(())
}

/// Takes the path of a union of scans, or those of a union's inputs.
#[cycle(visit)]
fn visit_union(
    alloc: Global,
    nodes: &[IR],
    cutter: &mut Cutter,
    n: u32,
    inputs: &[u32],
) -> Result<(), AllocError>
    requires room { HasRoom cutter.old n }
    requires down { list_all (is_down (map node_of nodes.now) n) inputs.now ≡ true }
    ensures { let nodes = map node_of nodes.now in
        let are_scans = list_all (is_scan_at nodes) inputs.now in
        let paths = union_paths are_scans n (paths_of nodes) inputs.now in
        OnOk result (cutter.new ≡ take_paths cutter.old paths) }
{
    if are_scans(nodes, inputs) {
        cutter.begin(alloc, n)?;
        return Ok(());
    }
    visit_inputs(alloc, nodes, cutter, n, inputs)?;
    Ok(())
}

/// Takes the paths of a union's inputs, one input after another.
#[cycle(visit)]
fn visit_inputs(
    alloc: Global,
    nodes: &[IR],
    cutter: &mut Cutter,
    n: u32,
    inputs: &[u32],
) -> Result<(), AllocError>
    requires room { HasRoom cutter.old n }
    requires down { list_all (is_down (map node_of nodes.now) n) inputs.now ≡ true }
    ensures { let paths = flat_map (paths_of (map node_of nodes.now)) inputs.now in
        OnOk result (cutter.new ≡ take_paths cutter.old (map (through n) paths)) }
{
    cutter.push(Step::Operator(n))?;
    for input in inputs {
        visit(alloc, nodes, cutter, *input)?;
    }
    cutter.pop();
    Ok(())
}

/// The branches of a plan over its nodes.
pub(crate) fn cut_nodes(alloc: Global, nodes: &[IR], root: u32) -> Result<List<Branch>, AllocError>
    requires down { goes_down (map node_of nodes.now) root ≡ true }
    requires few { length nodes.now < 2 ^ 30 }
    ensures { let paths = plan_paths (map node_of nodes.now) root in
        IfOk result (λ branches. branches ≡ numbered_paths [] paths) }
{
    let mut cutter = Cutter::new(alloc, nodes.len())?;
    visit(alloc, nodes, &mut cutter, root)?;
    Ok(cutter.into_branches())
}
