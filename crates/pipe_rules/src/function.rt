//! Conjuncts on a function over rows.

ghost use Rattle.std.specs.Prelude.{◌≡◌, map, IfOk};
ghost use Rattle.pipe_schema.specs.Schema.{has_name};
ghost use Rattle.pipe_expr.specs.Formula.{formula_of};
ghost use Rattle.pipe_expr.specs.Projections.{renamed};
ghost use Rattle.pipe_rules.specs.Placing.{below_function};
ghost use Rattle.pipe_rules.specs.Placements.{placing_of};
ghost use Rattle.pipe_rules.specs.Through.{through_index, old_pair};

use crate::naming::{Naming, with_names};
use crate::passage::{Passage, place_each};
use crate::placement::Placement;
use crate::reading::{NameTest, reads_only};
use pipe_check::{NameIndex, Named};
use pipe_expr::{Expr, FunctionIR, RenamePair};
use pipe_schema::{List, Schema, Text, TryClone};
use std::alloc::{AllocError, Global};
use std::marker::Model;

/// Whether a name stands among some names.
#[tactic(auto, using(crate::proofs::Selects::expr_rules))]
fn is_among(names: &NameIndex<Text>, name: &Text) -> bool
    ensures { result ≡ has_name names.now name.now }
{
    match names.first(name) {
        Some(_) => true,
        None => false,
    }
}

/// The index columns of an unpivot, whose conjuncts go onto its input.
#[derive(Drop)]
struct IndexColumns<'a> {
    names: NameIndex<'a, Text>,
}

impl<'a> NameTest for IndexColumns<'a> {
    ghost use Rattle.pipe_schema.specs.Schema.{has_name};

    ghost passes = { λ i. has_name i.names };

    fn passes(&self, name: &Text) -> bool {
        is_among(&self.names, name)
    }
}

impl<'a> Passage for IndexColumns<'a> {
    ghost use Rattle.pipe_rules.specs.Through.{through_index};

    ghost placing = { λ i. through_index i.names };

    fn place(&self, _alloc: Global, conjunct: Expr) -> Result<Placement, AllocError> {
        Ok(through_unpivot(self, conjunct))
    }
}

/// Where a conjunct on an unpivot goes: onto the input, where it reads index columns alone.
#[tactic(auto, using(crate::proofs::Placings::placing_rules))]
fn through_unpivot(index: &IndexColumns, conjunct: Expr) -> Placement
    ensures { placing_of result ≡ through_index index.now.names (formula_of conjunct) }
{
    if reads_only(&conjunct, index) {
        Placement::OnInputs(conjunct)
    } else {
        Placement::Above(conjunct)
    }
}

/// The name that a column gets: that of the first renaming of it.
#[tactic(auto, using(crate::proofs::Selects::expr_rules))]
fn given_name<'a>(pairs: &NameIndex<'a, RenamePair>, name: &'a Text) -> &'a Text
    ensures { result.now ≡ renamed pairs.now name.now }
{
    match pairs.first(name) {
        Some(pair) => &pair.new_name,
        None => name,
    }
}

/// A copy of the name that a column gets.
#[tactic(auto, using(crate::proofs::Selects::expr_rules))]
pub(crate) fn new_name(pairs: &NameIndex<RenamePair>, name: &Text) -> Result<Text, AllocError>
    ensures { IfOk result (λ made. made ≡ renamed pairs.now name.now) }
{
    match pairs.first(name) {
        Some(pair) => pair.new_name.try_clone(),
        None => name.try_clone(),
    }
}

/// The name that a renaming gives a column, and the column's own, both lent.
#[derive(Drop)]
struct OldName<'a> {
    given: &'a Text,
    own: &'a Text,
}

impl<'a> Model for OldName<'a> {
    ghost use Rattle.pipe_expr.specs.declared.join_words.RenamePair.{RenamePair};
    ghost use Rattle.pipe_rules.specs.Through.{given_and_own};

    ghost Value = { RenamePair };

    ghost view = { λ name. given_and_own name.given.now name.own.now };
}

impl<'a> OldName<'a> {
    /// The column's own name.
    fn own(&self) -> &'a Text
        ensures { result.now ≡ self.now.new_name }
    {
        self.own
    }
}

impl<'a> Named for OldName<'a> {
    ghost use Rattle.pipe_plan.specs.Faults.{existing_of};

    ghost name = { existing_of };

    fn name(&self) -> &Text {
        self.given
    }
}

/// The names that renamed columns get, each with the old one.
fn old_names<'a>(
    alloc: Global,
    pairs: &NameIndex<'a, RenamePair>,
    input: &'a Schema,
) -> Result<List<OldName<'a>>, AllocError>
    ensures { IfOk result (λ old_names. old_names ≡ map (old_pair pairs.now) input.now) }
{
    let mut old_names = List::new(alloc);
    for field in input.fields() {
        old_names.push(OldName {
            given: given_name(pairs, &field.name),
            own: &field.name,
        })?;
    }
    Ok(old_names)
}

/// Renamed columns, by the names that they get.
#[derive(Drop)]
struct Renamings<'a> {
    old_names: NameIndex<'a, OldName<'a>>,
}

/// The own name of the column that a renaming gives a name, or that name where there is none.
#[tactic(auto, using(crate::proofs::Selects::expr_rules))]
fn old_name(old_names: &NameIndex<OldName>, name: &Text) -> Result<Text, AllocError>
    ensures { IfOk result (λ made. made ≡ renamed old_names.now name.now) }
{
    match old_names.first(name) {
        Some(old) => old.own().try_clone(),
        None => name.try_clone(),
    }
}

impl<'a> Naming for Renamings<'a> {
    ghost use Rattle.pipe_expr.specs.Projections.{renamed};

    ghost name_for = { λ r. renamed r.old_names };

    fn name_for(&self, name: &Text) -> Result<Text, AllocError> {
        old_name(&self.old_names, name)
    }
}

impl<'a> Passage for Renamings<'a> {
    ghost use Rattle.pipe_rules.specs.Through.{through_names};

    ghost placing = { λ r. through_names r.old_names };

    fn place(&self, alloc: Global, conjunct: Expr) -> Result<Placement, AllocError> {
        let below = with_names(alloc, &conjunct, self)?;
        Ok(Placement::OnInputs(below))
    }
}

/// Where conjuncts on a function go: onto the input of an unpivot where they read index columns alone; onto the input of
/// a renaming, with the old names.
#[tactic(auto, using(crate::proofs::ByKind::function_rules))]
pub(crate) fn place_on_function<'a>(
    alloc: Global,
    input: &'a Schema,
    function: &'a FunctionIR,
    conjuncts: List<Expr>,
) -> Result<List<Placement>, AllocError>
    ensures { IfOk result (λ placements. map placing_of placements
        ≡ map (below_function input.now function.now) (map formula_of conjuncts)) }
{
    match function {
        FunctionIR::Unpivot { index, .. } => {
            let names = NameIndex::of(alloc, index.as_slice())?;
            let index = IndexColumns { names };
            Ok(place_each(alloc, &index, conjuncts)?)
        }
        FunctionIR::Rename { pairs } => {
            let pairs = NameIndex::of(alloc, pairs.as_slice())?;
            let names = old_names(alloc, &pairs, input)?;
            let old_names = NameIndex::of(alloc, names.as_slice())?;
            let renamings = Renamings { old_names };
            Ok(place_each(alloc, &renamings, conjuncts)?)
        }
    }
}
