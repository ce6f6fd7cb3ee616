//! Conjuncts on a join.

ghost use Rattle.std.specs.Prelude.{◌≡◌, ◌++◌, if◌then◌else◌, map, IfOk};
ghost use Rattle.pipe_schema.specs.Schema.{has_name, names_of};
ghost use Rattle.pipe_expr.specs.Formula.{formula_of};
ghost use Rattle.pipe_expr.specs.Joins.{column_names};
ghost use Rattle.pipe_check.specs.Sides.{is_kept_by};
ghost use Rattle.pipe_rules.specs.Placements.{placing_of};
ghost use Rattle.pipe_rules.specs.Through.{shown_names as names_shown, onto_right, through_sides};

use crate::function::new_name;
use crate::naming::{Naming, with_names};
use crate::passage::{Passage, place_each};
use crate::placement::Placement;
use crate::reading::{NameTest, reads_only};
use pipe_check::{Columns, NameIndex, is_coalescing, plain_names};
use pipe_expr::{Expr, JoinType, RenamePair};
use pipe_plan::JoinOptions;
use pipe_schema::{Field, List, Schema, Text, TryClone};
use std::alloc::{AllocError, Global};

/// A join's sides: the kind of the join, the left columns, and the names under which right columns stand in the output.
#[derive(Drop)]
struct JoinSides<'a> {
    how: JoinType,
    left: &'a Schema,
    shown: NameIndex<'a, RenamePair>,
}

/// The names of a join's left columns, and of no others.
#[derive(Drop)]
struct LeftNames<'a> {
    left: &'a Schema,
}

impl<'a> NameTest for LeftNames<'a> {
    ghost use Rattle.pipe_schema.specs.Schema.{has_name, names_of};

    ghost passes = { λ l. has_name (names_of l.left.now) };

    fn passes(&self, name: &Text) -> bool {
        self.left.index_of(name.as_bytes()).is_some()
    }
}

/// All names but those of a join's left columns.
#[derive(Drop)]
struct OtherNames<'a> {
    left: &'a Schema,
}

impl<'a> NameTest for OtherNames<'a> {
    ghost use Rattle.pipe_rules.specs.Placing.{is_not_in};

    ghost passes = { λ o. is_not_in o.left.now };

    fn passes(&self, name: &Text) -> bool {
        self.left.index_of(name.as_bytes()).is_none()
    }
}

/// Whether a right column is kept: unless the join coalesces and a right key is that column.
#[tactic(auto, using(crate::proofs::Selects::expr_rules))]
fn is_kept(keys: &NameIndex<Text>, options: &JoinOptions, field: &Field) -> bool
    ensures { result ≡ is_kept_by keys.now options.now field.now }
{
    match keys.first(&field.name) {
        Some(_) => !is_coalescing(options),
        None => true,
    }
}

/// The name of a kept right column in the output.
#[tactic(auto, using(crate::proofs::Selects::expr_rules))]
fn shown_name(alloc: Global, left: &Columns, suffix: &Text, name: &Text) -> Result<Text, AllocError>
    ensures { let is_left = has_name (names_of left.now) name.now in
        IfOk result (λ made. made ≡ (if is_left then name.now ++ suffix.now else name.now)) }
{
    match left.field(name) {
        Some(_) => {
            let mut made = String::from_str(alloc, name.as_str())?;
            made.push_str(suffix.as_str())?;
            Ok(Text::from_string(made))
        }
        None => name.try_clone(),
    }
}

/// The names of the kept right columns in the output, each with its own.
fn shown_names(
    alloc: Global,
    left: &Columns,
    right: &Schema,
    keys: &NameIndex<Text>,
    options: &JoinOptions,
) -> Result<List<RenamePair>, AllocError>
    ensures { IfOk result (λ shown.
        shown ≡ names_shown left.now right.now keys.now options.now) }
{
    let mut shown = List::new(alloc);
    for field in right.fields() {
        if is_kept(keys, options, field) {
            shown.push(RenamePair {
                existing: shown_name(alloc, left, &options.suffix, &field.name)?,
                new_name: field.name.try_clone()?,
            })?;
        }
    }
    Ok(shown)
}

impl<'a> Naming for JoinSides<'a> {
    ghost use Rattle.pipe_expr.specs.Projections.{renamed};

    ghost name_for = { λ j. renamed j.shown };

    fn name_for(&self, name: &Text) -> Result<Text, AllocError> {
        new_name(&self.shown, name)
    }
}

impl<'a> Passage for JoinSides<'a> {
    ghost use Rattle.pipe_rules.specs.Through.{through_sides};

    ghost placing = { λ j. through_sides j.how j.left.now j.shown };

    fn place(&self, alloc: Global, conjunct: Expr) -> Result<Placement, AllocError> {
        through_join(alloc, self, conjunct)
    }
}

/// Onto the right input, with the right names, where a conjunct reads right columns alone.
#[tactic(auto, using(crate::proofs::Placings::placing_rules))]
fn on_right(alloc: Global, sides: &JoinSides, conjunct: Expr) -> Result<Placement, AllocError>
    ensures { IfOk result (λ placement. placing_of placement
        ≡ onto_right sides.now.left.now sides.now.shown (formula_of conjunct)) }
{
    if reads_only(&conjunct, &OtherNames { left: sides.left }) {
        let below = with_names(alloc, &conjunct, sides)?;
        Ok(Placement::OnRight(below))
    } else {
        Ok(Placement::Above(conjunct))
    }
}

/// Where a conjunct on a join goes: onto the left input where it reads left columns alone, and onto the right input of
/// an inner or a cross join, with the right names, where it reads right columns alone.
#[tactic(auto, using(crate::proofs::Placings::placing_rules))]
fn through_join(alloc: Global, sides: &JoinSides, conjunct: Expr) -> Result<Placement, AllocError>
    ensures { IfOk result (λ placement. placing_of placement
        ≡ through_sides sides.now.how sides.now.left.now sides.now.shown (formula_of conjunct)) }
{
    let is_left = reads_only(&conjunct, &LeftNames { left: sides.left });
    match sides.how {
        JoinType::Inner | JoinType::Cross => {
            if is_left {
                Ok(Placement::OnLeft(conjunct))
            } else {
                Ok(on_right(alloc, sides, conjunct)?)
            }
        }
        JoinType::Left | JoinType::Semi | JoinType::Anti => {
            if is_left {
                Ok(Placement::OnLeft(conjunct))
            } else {
                Ok(Placement::Above(conjunct))
            }
        }
        JoinType::Full => Ok(Placement::Above(conjunct)),
    }
}

/// Where conjuncts on a join go, by the names under which right columns stand in its output.
fn place_by_names<'a>(
    alloc: Global,
    how: JoinType,
    left: &'a Schema,
    names: &'a [RenamePair],
    conjuncts: List<Expr>,
) -> Result<List<Placement>, AllocError>
    ensures { IfOk result (λ placements. map placing_of placements
        ≡ map (through_sides how left.now names.now) (map formula_of conjuncts)) }
{
    let shown = NameIndex::of(alloc, names)?;
    let sides = JoinSides { how, left, shown };
    Ok(place_each(alloc, &sides, conjuncts)?)
}

/// Where conjuncts on a join go.
pub(crate) fn place_on_join(
    alloc: Global,
    left: &Schema,
    right: &Schema,
    right_on: &[Expr],
    options: &JoinOptions,
    conjuncts: List<Expr>,
) -> Result<List<Placement>, AllocError>
    ensures { let keys = column_names (map formula_of right_on.now) in
        let shown = names_shown left.now right.now keys options.now in
        IfOk result (λ placements. map placing_of placements
        ≡ map (through_sides options.now.how left.now shown) (map formula_of conjuncts)) }
{
    let plain = plain_names(alloc, right_on)?;
    let keys = NameIndex::of(alloc, plain.as_slice())?;
    let names = shown_names(alloc, &Columns::of(left), right, &keys, options)?;
    Ok(place_by_names(alloc, options.how, left, names.as_slice(), conjuncts)?)
}
