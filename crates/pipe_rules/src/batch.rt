//! Conjuncts on their way down a chain of joins: which of them go onto the left input is told by how far they reach, and
//! where none of a chunk stays, its furthest reach tells so.

ghost use Rattle.std.specs.Prelude.{◌≡◌, List, ◌∷◌, [], ◌++◌, map, filter, IfOk, OnOk};
ghost use Rattle.std.specs.List.{AllByRecursion};
ghost use Rattle.pipe_schema.specs.declared.field.Field.{Field};
ghost use Rattle.pipe_expr.specs.Formula.{Formula, formula_of};
ghost use Rattle.pipe_rules.specs.Reach.{formula_in, is_near, far_formulas, furthest_of, chunk_of as made_chunk, formulas_in_chunk, formulas_in_chunks, near_in, far_in, IsChunk, IsOver, IsChunkOver, AreChunked, formulas_in, AreOver};

use crate::reach::reach;
use pipe_expr::Expr;
use pipe_schema::{List, Schema};
use std::alloc::{AllocError, Global};

/// How many conjuncts a chunk has at most.
const LARGEST: usize = 32;

/// A conjunct, and how far it reaches.
#[derive(Drop)]
pub(crate) struct Reaching {
    pub(crate) conjunct: Expr,
    pub(crate) reach: usize,
}

/// Some conjuncts, and the furthest of their reaches.
#[derive(Drop)]
pub(crate) struct Chunk {
    pub(crate) conjuncts: List<Reaching>,
    pub(crate) reach: usize,
}

/// Conjuncts on their way down a plan, with their reaches where they come down joins.
#[derive(Drop)]
pub(crate) enum Batch {
    Plain(List<Expr>),
    Chunks(List<Chunk>),
}

/// The furthest of some reaches.
fn furthest(conjuncts: &[Reaching]) -> usize
    ensures { result ≡ furthest_of conjuncts.now }
{
    let mut far = 0;
    for one in conjuncts {
        far = far.max(one.reach);
    }
    far
}

/// A chunk of some conjuncts.
fn chunk_of(conjuncts: List<Reaching>) -> Chunk
    ensures { result ≡ made_chunk conjuncts }
{
    let reach = furthest(conjuncts.as_slice());
    Chunk { conjuncts, reach }
}

/// Puts a conjunct with those that reach less far than so many fields, or with the others.
fn cut_one(
    bound: usize,
    one: Reaching,
    near: &mut List<Reaching>,
    far: &mut List<Expr>,
) -> Result<(), AllocError>
    ensures near { OnOk result (near.new ≡ near.old ++ filter (is_near bound) (one ∷ [])) }
    ensures far { OnOk result (map formula_of far.new
        ≡ map formula_of far.old ++ far_formulas bound (one ∷ [])) }
{
    if one.reach < bound {
        near.push(one)?;
    } else {
        let Reaching { conjunct, reach: _ } = one;
        far.push(conjunct)?;
    }
    Ok(())
}

/// Those of some conjuncts that reach less far than so many fields; the others go behind some.
fn cut_each(
    alloc: Global,
    bound: usize,
    conjuncts: List<Reaching>,
    far: &mut List<Expr>,
) -> Result<List<Reaching>, AllocError>
    ensures near { IfOk result (λ near. near ≡ filter (is_near bound) conjuncts) }
    ensures far { OnOk result (map formula_of far.new
        ≡ map formula_of far.old ++ far_formulas bound conjuncts) }
{
    let mut near = List::new(alloc);
    for one in conjuncts.into_vec() {
        cut_one(bound, one, &mut near, far)?;
    }
    Ok(near)
}

/// What of a chunk reaches less far than so many fields; the others go behind some.
#[tactic(auto, using(crate::proofs::Reaches::chunk_rules))]
fn cut_chunk(
    alloc: Global,
    bound: usize,
    chunk: Chunk,
    far: &mut List<Expr>,
) -> Result<Chunk, AllocError>
    requires { IsChunk chunk }
    ensures near { IfOk result (λ near. near ≡ near_in bound chunk) }
    ensures far { OnOk result (map formula_of far.new
        ≡ map formula_of far.old ++ far_formulas bound chunk.conjuncts) }
{
    if chunk.reach < bound {
        return Ok(chunk);
    }
    let Chunk {
        conjuncts,
        reach: _,
    } = chunk;
    let near = cut_each(alloc, bound, conjuncts, far)?;
    Ok(chunk_of(near))
}

/// What of some chunks reaches less far than so many fields; the others go behind some. A chunk of which all does is
/// looked at once.
pub(crate) fn cut(
    alloc: Global,
    bound: usize,
    chunks: List<Chunk>,
    far: &mut List<Expr>,
) -> Result<List<Chunk>, AllocError>
    requires { AllByRecursion IsChunk chunks }
    ensures near { IfOk result (λ near. near ≡ map (near_in bound) chunks) }
    ensures far { OnOk result (map formula_of far.new
        ≡ map formula_of far.old ++ far_in bound chunks) }
{
    let mut near = List::new(alloc);
    for chunk in chunks.into_vec() {
        let part = cut_chunk(alloc, bound, chunk, far)?;
        near.push(part)?;
    }
    Ok(near)
}

/// Puts a conjunct behind those that are in no chunk yet, which become one where there are many.
fn push_reaching(
    alloc: Global,
    chunks: &mut List<Chunk>,
    loose: List<Reaching>,
    one: Reaching,
) -> Result<List<Reaching>, AllocError>
    ensures { IfOk result (λ left. (fields : List Field) → (all : List Formula)
        → IsOver fields one → AreChunked fields all chunks.old loose
        → AreChunked fields (all ++ formula_in one ∷ []) chunks.new left) }
{
    let mut more = loose;
    more.push(one)?;
    if more.len() < LARGEST {
        return Ok(more);
    }
    chunks.push(chunk_of(more))?;
    Ok(List::new(alloc))
}

/// Takes the last of some chunks out, and gives its conjuncts.
fn take_last(alloc: Global, chunks: &mut Vec<Chunk>) -> List<Reaching>
    ensures { (fields : List Field) → (all : List Formula)
        → AreChunked fields all chunks.old.items []
        → AreChunked fields all chunks.new.items result }
{
    match chunks.pop() {
        Some(chunk) => {
            let Chunk {
                conjuncts,
                reach: _,
            } = chunk;
            conjuncts
        }
        None => List::new(alloc),
    }
}

/// Chunks of conjuncts, of some behind them that are in no chunk yet, and of others behind these, whose reaches are those
/// over a schema.
fn chunked(
    alloc: Global,
    schema: &Schema,
    chunks: List<Chunk>,
    loose: List<Reaching>,
    behind: List<Expr>,
) -> Result<List<Chunk>, AllocError>
    ensures { IfOk result (λ made. (all : List Formula) → AreChunked schema.now all chunks loose
        → AreChunked schema.now (all ++ map formula_of behind) made []) }
{
    let mut made = chunks;
    let mut open = loose;
    for conjunct in behind.into_vec() {
        let reach = reach(schema, &conjunct);
        let one = Reaching { conjunct, reach };
        let next = push_reaching(alloc, &mut made, open, one)?;
        open = next;
    }
    made.push(chunk_of(open))?;
    Ok(made)
}

/// Conjuncts in chunks, and others behind them, of which the first go into the last chunk.
fn chunks_behind(
    alloc: Global,
    schema: &Schema,
    chunks: List<Chunk>,
    behind: List<Expr>,
) -> Result<List<Chunk>, AllocError>
    requires { AllByRecursion (IsChunkOver schema.now) chunks }
    ensures same { IfOk result (λ all.
        formulas_in_chunks all ≡ formulas_in_chunks chunks ++ map formula_of behind) }
    ensures over { IfOk result (AllByRecursion (IsChunkOver schema.now)) }
{
    let mut closed = chunks.into_vec();
    let open = take_last(alloc, &mut closed);
    let all = chunked(alloc, schema, List::from_vec(closed), open, behind)?;
    Ok(all)
}

/// Conjuncts in chunks, with their reaches over a schema.
fn in_chunks(
    alloc: Global,
    schema: &Schema,
    conjuncts: List<Expr>,
) -> Result<List<Chunk>, AllocError>
    ensures same { IfOk result (λ all. formulas_in_chunks all ≡ map formula_of conjuncts) }
    ensures over { IfOk result (AllByRecursion (IsChunkOver schema.now)) }
{
    let none = List::new(alloc);
    let all = chunks_behind(alloc, schema, none, conjuncts)?;
    Ok(all)
}

/// Puts the conjuncts of a chunk behind others.
fn push_chunk(list: &mut List<Expr>, chunk: Chunk) -> Result<(), AllocError>
    ensures { OnOk result (map formula_of list.new
        ≡ map formula_of list.old ++ formulas_in_chunk chunk) }
{
    let Chunk {
        conjuncts,
        reach: _,
    } = chunk;
    for one in conjuncts.into_vec() {
        let Reaching { conjunct, reach: _ } = one;
        list.push(conjunct)?;
    }
    Ok(())
}

/// The conjuncts of some chunks.
fn listed(alloc: Global, chunks: List<Chunk>) -> Result<List<Expr>, AllocError>
    ensures { IfOk result (λ list. map formula_of list ≡ formulas_in_chunks chunks) }
{
    let mut list = List::new(alloc);
    for chunk in chunks.into_vec() {
        push_chunk(&mut list, chunk)?;
    }
    Ok(list)
}

/// Conjuncts as a list.
pub(crate) fn in_a_list(alloc: Global, batch: Batch) -> Result<List<Expr>, AllocError>
    ensures { IfOk result (λ list. map formula_of list ≡ formulas_in batch) }
{
    match batch {
        Batch::Plain(list) => Ok(list),
        Batch::Chunks(chunks) => listed(alloc, chunks),
    }
}

/// Conjuncts in chunks, with their reaches over the schema of the node that they come to.
pub(crate) fn in_chunks_over(
    alloc: Global,
    schema: &Schema,
    batch: Batch,
) -> Result<List<Chunk>, AllocError>
    requires { AreOver schema.now batch }
    ensures same { IfOk result (λ chunks. formulas_in_chunks chunks ≡ formulas_in batch) }
    ensures over { IfOk result (AllByRecursion (IsChunkOver schema.now)) }
{
    match batch {
        Batch::Plain(list) => in_chunks(alloc, schema, list),
        Batch::Chunks(chunks) => Ok(chunks),
    }
}

/// Conjuncts in a list, and others behind them.
fn list_behind(list: List<Expr>, behind: List<Expr>) -> Result<List<Expr>, AllocError>
    ensures { IfOk result (λ all. map formula_of all ≡ map formula_of list ++ map formula_of behind) }
{
    let mut all = list.into_vec();
    let mut behind = behind.into_vec();
    all.append(&mut behind)?;
    Ok(List::from_vec(all))
}

/// Conjuncts, and others behind them.
pub(crate) fn with_behind(
    alloc: Global,
    schema: &Schema,
    batch: Batch,
    behind: List<Expr>,
) -> Result<Batch, AllocError>
    requires { AreOver schema.now batch }
    ensures all { IfOk result (λ all.
        formulas_in all ≡ formulas_in batch ++ map formula_of behind) }
    ensures over { IfOk result (AreOver schema.now) }
{
    match batch {
        Batch::Plain(list) => {
            let all = list_behind(list, behind)?;
            Ok(Batch::Plain(all))
        }
        Batch::Chunks(chunks) => {
            let all = chunks_behind(alloc, schema, chunks, behind)?;
            Ok(Batch::Chunks(all))
        }
    }
}
