//! The texts of branches.

ghost use Rattle.std.specs.Prelude.{◌≡◌, ◌++◌, map, IfOk, OnOk, string_bytes};
ghost use Rattle.pipe_plan.specs.Node.{node_of};
ghost use Rattle.pipe_driver.specs.Branches.{plan_paths, numbered_paths};
ghost use Rattle.pipe_driver.specs.Climbing.{goes_down};
ghost use Rattle.pipe_driver.specs.Texts.{arrow_word, operator_texts, between, sink_texts, branch_text};

use crate::branch::{Branch, SinkNode};
use crate::words::{word_at, word_of_sink};
use pipe_plan::IR;
use pipe_schema::{List, Text};
use std::alloc::{AllocError, Global};

/// Puts a word behind an arrow.
fn push_word(text: &mut String, word: &str) -> Result<(), AllocError>
    ensures { OnOk result (string_bytes text.new ≡ string_bytes text.old ++ arrow_word word.now) }
{
    text.push_str(" -> ")?;
    text.push_str(word)?;
    Ok(())
}

/// Puts the words of operators.
fn push_operators(text: &mut String, nodes: &[IR], operators: &[u32]) -> Result<(), AllocError>
    ensures { let added = operator_texts (map node_of nodes.now) operators.now in
        OnOk result (string_bytes text.new ≡ string_bytes text.old ++ added) }
{
    for n in operators {
        push_word(text, word_at(nodes, *n))?;
    }
    Ok(())
}

/// The operators from one place up to another, as far as there are any.
#[tactic(auto, using(crate::proofs::Between::between_cut))]
fn operators_between(operators: &[u32], first: usize, offset: usize) -> &[u32]
    ensures { result.now ≡ between operators.now first offset }
{
    let end = offset.min(operators.len());
    let start = first.min(end);
    &operators[start..end]
}

/// Puts the words of sinks, each behind those of the operators that stand before it and after the sink before.
fn push_sinks(
    text: &mut String,
    nodes: &[IR],
    operators: &[u32],
    sinks: &[SinkNode],
) -> Result<(), AllocError>
    ensures { let added = sink_texts (map node_of nodes.now) operators.now 0 sinks.now in
        OnOk result (string_bytes text.new ≡ string_bytes text.old ++ added) }
{
    let mut first = 0;
    for sink in sinks {
        let offset = sink.offset as usize;
        push_operators(text, nodes, operators_between(operators, first, offset))?;
        push_word(text, word_of_sink(nodes, sink.at))?;
        first = offset;
    }
    Ok(())
}

/// The text of a branch.
fn text_of_branch(alloc: Global, nodes: &[IR], branch: &Branch) -> Result<Text, AllocError>
    ensures { IfOk result (λ text. text ≡ branch_text (map node_of nodes.now) branch.now) }
{
    let mut text = String::from_str(alloc, word_at(nodes, branch.source))?;
    let operators = branch.operators.as_slice();
    push_sinks(&mut text, nodes, operators, branch.sinks.as_slice())?;
    Ok(Text::from_string(text))
}

/// The texts of branches, one a branch.
pub(crate) fn texts_of_branches(
    alloc: Global,
    nodes: &[IR],
    branches: &[Branch],
) -> Result<List<Text>, AllocError>
    ensures { IfOk result
        (λ texts. texts ≡ map (branch_text (map node_of nodes.now)) branches.now) }
{
    let mut texts = List::new(alloc);
    for branch in branches {
        let text = text_of_branch(alloc, nodes, branch)?;
        texts.push(text)?;
    }
    Ok(texts)
}
