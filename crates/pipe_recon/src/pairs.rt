//! What the rows of the join tell: the least row of the other side that stands beside each row.

ghost use Rattle.std.specs.Prelude.{◌≡◌, ◌<◌, IfOk, length};
ghost use Rattle.pipe_recon.specs.JoinPlan.{join_fields, left_row, right_row};
ghost use Rattle.pipe_recon.specs.Least.{AreLeastIn, AreNumbers};

use crate::least::least_partners;
use crate::recon::{Partner, Recon};
use pipe_column::Column;
use pipe_frame::DataFrame;
use pipe_schema::List;
use std::alloc::{AllocError, Global};

/// Where the numbers of the left rows stand in the join.
const LEFT_ROW: usize = 1;

/// Where the numbers of the right rows stand in the join.
const RIGHT_ROW: usize = 3;

/// The numbers of the left rows in the join.
fn left_numbers(frame: &DataFrame) -> &Column<u32>
    requires { frame.now.schema ≡ join_fields }
    ensures { AreNumbers frame.now.rows left_row result.now }
{
    match frame.get_columns()[LEFT_ROW].as_column::<u32>() {
        Some(numbers) => numbers,
        None => unreachable!(),
    }
}

/// The numbers of the right rows in the join.
fn right_numbers(frame: &DataFrame) -> &Column<u32>
    requires { frame.now.schema ≡ join_fields }
    ensures { AreNumbers frame.now.rows right_row result.now }
{
    match frame.get_columns()[RIGHT_ROW].as_column::<u32>() {
        Some(numbers) => numbers,
        None => unreachable!(),
    }
}

/// The classes of the left and the right rows, of which there are so many, by the rows of their join.
#[tactic(auto, using(crate::proofs::Classes::as_many))]
pub fn recon_in(
    alloc: Global,
    frame: &DataFrame,
    left_height: usize,
    right_height: usize,
) -> Result<Recon, AllocError>
    requires { frame.now.schema ≡ join_fields }
    ensures left { IfOk result (λ recon.
        AreLeastIn frame.now.rows left_row right_row left_height recon.left) }
    ensures right { IfOk result (λ recon.
        AreLeastIn frame.now.rows right_row left_row right_height recon.right) }
{
    let lefts = left_numbers(frame);
    let rights = right_numbers(frame);
    let left = least_partners(alloc, left_height, lefts, rights)?;
    let right = least_partners(alloc, right_height, rights, lefts)?;
    Ok(Recon {
        left: List::from_vec(left),
        right: List::from_vec(right),
    })
}
