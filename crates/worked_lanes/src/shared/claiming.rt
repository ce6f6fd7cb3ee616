//! Claims, drawn by two threads.

ghost use Rattle.std.specs.Prelude.{◌≡◌, ◌+◌, ◌≤◌, length};
ghost use Rattle.pipe_chain.specs.Claims.{claim_limit};

use pipe_chain::{ClaimSeat, Claims};
use std::alloc::{AllocError, Global};
use std::thread::{Threads, join};

/// Draws so many numbers.
fn draw(
    alloc: Global,
    claims: &Claims,
    seat: &mut ClaimSeat,
    count: u32,
) -> Result<Vec<u64>, AllocError>
    requires seat { seat.old.table ≡ claims.now.table }
    requires limit { length seat.old.drawn + count ≤ claim_limit }
    ensures { seat.new.table ≡ seat.old.table }
{
    let mut drawn = Vec::new(alloc);
    for _ in 0..count {
        drawn.push(claims.claim(seat))?;
    }
    Ok(drawn)
}

/// Draws them, and hands the seat back.
fn draw_all(
    alloc: Global,
    claims: &Claims,
    mut seat: ClaimSeat,
    count: u32,
) -> (ClaimSeat, Result<Vec<u64>, AllocError>)
    requires seat { seat.table ≡ claims.now.table }
    requires limit { length seat.drawn + count ≤ claim_limit }
    ensures { result.0.table ≡ seat.table }
{
    let drawn = draw(alloc, claims, &mut seat, count);
    (seat, drawn)
}

/// What two threads draw that draw 1,000 numbers each, in order, and how many numbers were drawn then.
fn drawn_by_two<R: Threads + Sync>(
    rt: &R,
    alloc: Global,
) -> Result<Option<(Vec<u64>, u64)>, AllocError> {
    let (claims, mut seats) = Claims::new(alloc, 2)?;
    let Some(one) = seats.pop() else {
        return Ok(None);
    };
    let Some(other) = seats.pop() else {
        return Ok(None);
    };
    let ((one, drawn), (other, more)) = join(
        rt,
        || draw_all(alloc, &claims, one, 1000),
        || draw_all(alloc, &claims, other, 1000),
    );
    let mut drawn = drawn?;
    drawn.extend_from_slice(more?.as_slice())?;
    drawn.sort()?;
    seats.push(one)?;
    seats.push(other)?;
    let count = claims.close(seats);
    Ok(Some((drawn, count)))
}

/// Appends whether two threads draw each number once.
pub(crate) fn tell<R: Threads + Sync>(
    rt: &R,
    alloc: Global,
    answers: &mut String,
) -> Result<(), AllocError> {
    answers.push_str("# two threads draw 1,000 numbers each\n")?;
    let Some((drawn, count)) = drawn_by_two(rt, alloc)? else {
        return answers.push_str("no seat\n");
    };
    let all: Vec<u64> = Vec::from_iter(alloc, 0..2000)?;
    let each = drawn.as_slice() == all.as_slice();
    answers.push_str(format!(in alloc; "each below 2000 once: {each}; drawn: {count}\n")?.as_str())
}
