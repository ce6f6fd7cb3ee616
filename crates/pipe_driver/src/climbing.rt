//! The way of one path from its source upwards.

ghost use Rattle.std.specs.Prelude.{◌≡◌, ◌<◌, ◌^◌, [], ◌∷◌, ◌++◌, true, length, IfOk, OnOk};
ghost use Rattle.std.specs.List.{list_all};
ghost use Rattle.pipe_driver.specs.Branches.{path_from, branch_of, numbered_sink, placed};
ghost use Rattle.pipe_driver.specs.Climbing.{climbed, passed, name_all, add_name, is_sink_in, is_step_in, put_numbered};

use crate::above::{Above, Step};
use crate::branch::{Branch, SinkAt, SinkNode};
use crate::naming::Naming;
use pipe_schema::List;
use std::alloc::{AllocError, Global};

/// Puts a sink behind the operators of a branch.
fn put_sink(naming: &mut Naming, branch: &mut Branch, at: SinkAt) -> Result<(), AllocError>
    requires few { length branch.old.operators < 2 ^ 32 }
    requires there { is_sink_in naming.old.nodes at ≡ true }
    ensures sink { OnOk result (branch.new ≡ put_numbered naming.old.sinks at branch.old) }
    ensures named { OnOk result (naming.new ≡ add_name naming.old at) }
{
    let count = naming.number(at)?;
    let offset = branch.operators.len() as u32;
    branch.sinks.push(SinkNode { offset, at, count })?;
    Ok(())
}

/// Leads a branch on from its source, through what stands above, to the last sink that it feeds.
fn climb(above: &mut Above, naming: &mut Naming, branch: &mut Branch) -> Result<(), AllocError>
    requires height { length above.old < 2 ^ 32 }
    requires there { list_all (is_step_in naming.old.nodes) above.old ≡ true }
    requires fresh { branch.old ≡ branch_of naming.old.sinks (path_from branch.old.source) }
    ensures branch { let path = climbed above.old (path_from branch.old.source) in
        OnOk result (branch.new ≡ branch_of naming.old.sinks path) }
    ensures named { let path = climbed above.old (path_from branch.old.source) in
        OnOk result (naming.new ≡ name_all naming.old path.sinks) }
    ensures above { OnOk result (above.new ≡ passed above.old) }
{
    for k in 0..above.len() {
        match above.get(k) {
            Step::Operator(node) => branch.operators.push(node)?,
            Step::Build(node) => {
                put_sink(naming, branch, SinkAt::Build(node))?;
                return Ok(());
            }
            Step::Sort { node, is_passed } => {
                put_sink(naming, branch, SinkAt::Sort(node))?;
                if is_passed {
                    return Ok(());
                }
                above.set(
                    k,
                    Step::Sort {
                        node,
                        is_passed: true,
                    },
                );
            }
        }
    }
    put_sink(naming, branch, SinkAt::Ordered)?;
    Ok(())
}

/// The branch of a path from a source.
pub(crate) fn branch_from(
    alloc: Global,
    above: &mut Above,
    naming: &mut Naming,
    source: u32,
) -> Result<Branch, AllocError>
    requires height { length above.old < 2 ^ 32 }
    requires there { list_all (is_step_in naming.old.nodes) above.old ≡ true }
    ensures branch { let path = climbed above.old (path_from source) in
        IfOk result (λ branch. branch ≡ branch_of naming.old.sinks path) }
    ensures named { let path = climbed above.old (path_from source) in
        OnOk result (naming.new ≡ name_all naming.old path.sinks) }
    ensures above { OnOk result (above.new ≡ passed above.old) }
{
    let mut branch = Branch {
        source,
        operators: List::new(alloc),
        sinks: List::new(alloc),
    };
    climb(above, naming, &mut branch)?;
    Ok(branch)
}
