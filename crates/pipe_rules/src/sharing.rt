//! The conjuncts of a filter on a node, by where they go, and which of them each of its inputs gets.

ghost use Rattle.std.specs.Prelude.{◌≡◌, ◌==◌, ℕ, List, true, false, map, IfOk, OnOk};
ghost use Rattle.std.specs.List.{AllByRecursion};
ghost use Rattle.pipe_schema.specs.declared.field.Field.{Field};
ghost use Rattle.pipe_expr.specs.Formula.{formula_of};
ghost use Rattle.pipe_plan.specs.Node.{node_of};
ghost use Rattle.pipe_plan.specs.Under.{inputs_of};
ghost use Rattle.pipe_rules.specs.Placed.{is_input, first_input};
ghost use Rattle.pipe_rules.specs.Placing.{placing};
ghost use Rattle.pipe_rules.specs.Parted.{parts_of, part_for, is_join};
ghost use Rattle.pipe_rules.specs.Reach.{IsChunkOver, formulas_in, formulas_in_chunks, AreOver, BeginsWith, lets_left as goes_left, is_passed_left};
ghost use Rattle.pipe_rules.specs.Values.{parts_in};

use crate::batch::{Batch, Chunk, cut, in_a_list, in_chunks_over};
use crate::parting::{Parted, part};
use pipe_expr::{Expr, JoinType, copy_exprs};
use pipe_plan::IR;
use pipe_schema::{List, Schema};
use std::alloc::{AllocError, Global};
use std::mem::replace;

/// Conjuncts that stay above a node, that go onto each of its inputs, and that go onto one side of a join.
#[derive(Drop)]
pub(crate) struct Shares {
    pub(crate) above: List<Expr>,
    pub(crate) inputs: List<Expr>,
    pub(crate) left: Batch,
    pub(crate) right: List<Expr>,
}

/// Whether conjuncts on left columns alone go onto the left input of a join.
fn lets_left(how: JoinType) -> bool
    ensures { result ≡ goes_left how }
{
    match how {
        JoinType::Inner | JoinType::Left | JoinType::Cross | JoinType::Semi | JoinType::Anti =>
            true,
        JoinType::Full => false,
    }
}

/// Whether a node is a join whose left input gets the conjuncts on left columns alone.
fn passes_left(node: &IR) -> bool
    ensures { result ≡ is_passed_left (node_of node.now) }
{
    match node {
        IR::Join { options, .. } => lets_left(options.how),
        IR::DataFrameScan { .. }
        | IR::Filter { .. }
        | IR::SimpleProjection { .. }
        | IR::Select { .. }
        | IR::HStack { .. }
        | IR::MapFunction { .. }
        | IR::Union { .. }
        | IR::Sort { .. } => false,
    }
}

/// The shares of conjuncts that are placed one by one.
fn share_list(
    alloc: Global,
    node: &IR,
    left: &Schema,
    right: &Schema,
    conjuncts: List<Expr>,
) -> Result<Shares, AllocError>
    ensures parts { IfOk result (λ shares. parts_in shares
        ≡ parts_of (map (placing left.now right.now (node_of node.now))
        (map formula_of conjuncts))) }
    ensures over { IfOk result (λ shares. AreOver left.now shares.left) }
{
    let parted = part(alloc, node, left, right, conjuncts)?;
    let Parted {
        above,
        inputs,
        left: lefts,
        right: rights,
    } = parted;
    Ok(Shares {
        above,
        inputs,
        left: Batch::Plain(lefts),
        right: rights,
    })
}

/// The shares of conjuncts on a join: those that reach less far than its left columns go onto its left input, and the
/// others are placed one by one.
fn share_chunks(
    alloc: Global,
    node: &IR,
    own: &Schema,
    left: &Schema,
    right: &Schema,
    chunks: List<Chunk>,
) -> Result<Shares, AllocError>
    requires passed { is_passed_left (node_of node.now) ≡ true }
    requires begins { is_passed_left (node_of node.now) ≡ true → BeginsWith own.now left.now }
    requires over { AllByRecursion (IsChunkOver own.now) chunks }
    ensures parts { IfOk result (λ shares. parts_in shares
        ≡ parts_of (map (placing left.now right.now (node_of node.now))
        (formulas_in_chunks chunks))) }
    ensures over { IfOk result (λ shares. AreOver left.now shares.left) }
{
    let mut far = List::new(alloc);
    let near = cut(alloc, left.len(), chunks, &mut far)?;
    let parted = part(alloc, node, left, right, far)?;
    let Parted {
        above,
        inputs,
        left: _,
        right: rights,
    } = parted;
    Ok(Shares {
        above,
        inputs,
        left: Batch::Chunks(near),
        right: rights,
    })
}

/// The conjuncts of a filter on a node, by where they go, over the schemas of the node and of its first and second input.
pub(crate) fn share(
    alloc: Global,
    node: &IR,
    own: &Schema,
    left: &Schema,
    right: &Schema,
    conjuncts: Batch,
) -> Result<Shares, AllocError>
    requires begins { is_passed_left (node_of node.now) ≡ true → BeginsWith own.now left.now }
    requires over { AreOver own.now conjuncts }
    ensures parts { IfOk result (λ shares. parts_in shares
        ≡ parts_of (map (placing left.now right.now (node_of node.now))
        (formulas_in conjuncts))) }
    ensures over { IfOk result (λ shares. AreOver left.now shares.left) }
{
    if passes_left(node) {
        let chunks = in_chunks_over(alloc, own, conjuncts)?;
        let shares = share_chunks(alloc, node, own, left, right, chunks)?;
        Ok(shares)
    } else {
        let list = in_a_list(alloc, conjuncts)?;
        let shares = share_list(alloc, node, left, right, list)?;
        Ok(shares)
    }
}

impl Shares {
    /// The conjuncts that go onto an input of a node: copies of a union's, which each of its inputs gets, and those
    /// themselves of another's, so that a conjunct isn't copied on its way down.
    pub(crate) fn take_for(
        &mut self,
        alloc: Global,
        node: &IR,
        input: u32,
    ) -> Result<Batch, AllocError>
        requires { is_input (node_of node.now) input ≡ true }
        ensures share { IfOk result (λ share. formulas_in share
            ≡ part_for (node_of node.now) (parts_in self.old) input) }
        ensures others { (i : ℕ) → is_input (node_of node.now) i ≡ true → (i == input) ≡ false
            → part_for (node_of node.now) (parts_in self.new) i
            ≡ part_for (node_of node.now) (parts_in self.old) i }
        ensures above { self.new.above ≡ self.old.above }
        ensures over { IfOk result (λ share. (schema : ℕ → List Field)
            → (is_join (node_of node.now) ≡ true
            → AreOver (schema (first_input (inputs_of (node_of node.now)))) self.old.left)
            → AreOver (schema input) share) }
        ensures left { (fields : List Field) → AreOver fields self.old.left
            → AreOver fields self.new.left }
    {
        match node {
            IR::Join { left, right, .. } => {
                if input == *left {
                    Ok(replace(&mut self.left, Batch::Plain(List::new(alloc))))
                } else if input == *right {
                    Ok(Batch::Plain(replace(&mut self.right, List::new(alloc))))
                } else {
                    Ok(Batch::Plain(List::new(alloc)))
                }
            }
            IR::Union { .. } => {
                let copies = copy_exprs(alloc, self.inputs.as_slice())?;
                Ok(Batch::Plain(copies))
            }
            _ => Ok(Batch::Plain(replace(&mut self.inputs, List::new(alloc)))),
        }
    }
}
