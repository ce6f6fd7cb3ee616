//! What is found while choices are compared.

ghost use Rattle.std.specs.Prelude.{◌≡◌, ◌+◌, ◌++◌, ◌∷◌, [], ℕ, List, Some, slice_index_or, IfOk};
ghost use Rattle.pipe_plan.specs.Plan.{Plan};
ghost use Rattle.pipe_plan.specs.Under.{node_at};
ghost use Rattle.pipe_parts.specs.Choices.{Choice, in_pairs};
ghost use Rattle.pipe_parts.specs.Parts.{frame_in};
ghost use Rattle.pipe_parts.specs.Least.{IsBest, IsBounded};

use crate::wish::{ScanCut, Wish};
use pipe_schema::{List, TryClone};
use std::alloc::{AllocError, Global};

/// A choice: how each scan is cut, and how many rows each part has to have whole.
#[derive(Debug, Drop)]
pub struct Found {
    pub cuts: List<ScanCut>,
    pub whole: u128,
}

/// The choice for no scan.
pub(crate) fn nothing(alloc: Global) -> Option<Found>
    ensures best { (plan : Plan) (sizes : List ℕ) → IsBest plan sizes ([] ∷ []) result }
    ensures bounded { IsBounded result }
{
    Some(Found {
        cuts: List::new(alloc),
        whole: 0,
    })
}

/// The choice for one scan of a frame of so many rows.
pub(crate) fn one(
    alloc: Global,
    scan: u32,
    cut: &Wish,
    rows: u64,
) -> Result<Option<Found>, AllocError>
    ensures best { IfOk result (λ found. (plan : Plan) (sizes : List ℕ)
        → rows ≡ slice_index_or sizes (frame_in (node_at plan.nodes scan)) 0
        → IsBest plan sizes ((record { scan = scan; cut = cut.now } ∷ []) ∷ []) found) }
    ensures bounded { IfOk result IsBounded }
{
    let whole = match cut {
        Wish::Split => 0,
        Wish::Key { .. } => 0,
        Wish::Whole => rows as u128,
    };
    let mut cuts = List::new(alloc);
    cuts.push(ScanCut {
        scan,
        cut: cut.try_clone()?,
    })?;
    Ok(Some(Found { cuts, whole }))
}

/// Two choices as one.
fn joined(first: Found, second: Found) -> Result<Found, AllocError>
    requires first { IsBounded (Some first) }
    requires second { IsBounded (Some second) }
    ensures cuts { IfOk result (λ found. found.cuts ≡ first.cuts ++ second.cuts) }
    ensures whole { IfOk result (λ found. found.whole ≡ first.whole + second.whole) }
{
    let Found { cuts, whole } = first;
    let mut cuts = cuts.into_vec();
    let mut later = second.cuts.into_vec();
    cuts.append(&mut later)?;
    let _count = cuts.len();
    Ok(Found {
        cuts: List::from_vec(cuts),
        whole: whole + second.whole,
    })
}

/// What is found for two inputs, where something is for both.
pub(crate) fn both(first: Option<Found>, second: Option<Found>) -> Result<Option<Found>, AllocError>
    requires first { IsBounded first }
    requires second { IsBounded second }
    ensures best { IfOk result (λ found. (plan : Plan) (sizes : List ℕ) (xs ys : List Choice)
        → IsBest plan sizes xs first → IsBest plan sizes ys second
        → IsBest plan sizes (in_pairs xs ys) found) }
    ensures bounded { IfOk result IsBounded }
{
    match first {
        None => Ok(None),
        Some(first) => match second {
            None => Ok(None),
            Some(second) => {
                let found = joined(first, second)?;
                Ok(Some(found))
            }
        },
    }
}

/// The one that leaves less to be had whole, or the first of two that leave as much.
pub(crate) fn better(first: Option<Found>, second: Option<Found>) -> Option<Found>
    requires first { IsBounded first }
    requires second { IsBounded second }
    ensures best { (plan : Plan) (sizes : List ℕ) (xs ys : List Choice)
        → IsBest plan sizes xs first → IsBest plan sizes ys second
        → IsBest plan sizes (xs ++ ys) result }
    ensures bounded { IsBounded result }
{
    match first {
        None => second,
        Some(first) => match second {
            None => Some(first),
            Some(second) => {
                if second.whole < first.whole {
                    Some(second)
                } else {
                    Some(first)
                }
            }
        },
    }
}
