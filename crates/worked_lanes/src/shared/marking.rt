//! Match flags, marked by one thread and by two.

ghost use Rattle.std.specs.Prelude.{◌≡◌, ◌≤◌};

use pipe_chain::{FlagSeat, Marked, MatchFlags};
use std::alloc::{AllocError, Global};
use std::thread::{Threads, join};

/// Marks the keys below `keys`, and keeps those that it was the first to mark.
fn mark_keys(
    alloc: Global,
    flags: &MatchFlags,
    seat: &mut FlagSeat,
    keys: u32,
) -> Result<Vec<u32>, AllocError>
    requires seat { seat.old.table ≡ flags.now.table }
    requires keys { keys ≤ flags.now.keys }
    ensures { seat.new.table ≡ seat.old.table }
{
    let mut firsts = Vec::new(alloc);
    for key in 0..keys {
        match flags.mark(seat, key) {
            Marked::First => firsts.push(key)?,
            Marked::Again => {}
        }
    }
    Ok(firsts)
}

/// Marks them, and hands the seat back.
fn mark_all(
    alloc: Global,
    flags: &MatchFlags,
    mut seat: FlagSeat,
    keys: u32,
) -> (FlagSeat, Result<Vec<u32>, AllocError>)
    requires seat { seat.table ≡ flags.now.table }
    requires keys { keys ≤ flags.now.keys }
    ensures { result.0.table ≡ seat.table }
{
    let firsts = mark_keys(alloc, flags, &mut seat, keys);
    (seat, firsts)
}

/// Appends what three marks of one key answer, by two seats, and which of three keys have a flag then.
fn tell_thrice(alloc: Global, answers: &mut String) -> Result<(), AllocError> {
    let (flags, mut seats) = MatchFlags::new(alloc, 3, 2)?;
    let first = flags.mark(&mut seats[0], 1);
    let second = flags.mark(&mut seats[1], 1);
    let third = flags.mark(&mut seats[0], 1);
    let closed = flags.close(seats);
    let (zero, one, two) = (closed.is_set(0), closed.is_set(1), closed.is_set(2));
    answers.push_str("# key 1 of three is marked by two seats\n")?;
    answers.push_str(format!(in alloc; "{first:?}, {second:?}, {third:?}\n")?.as_str())?;
    answers.push_str(format!(in alloc; "flags: {zero}, {one}, {two}\n")?.as_str())
}

/// The keys below 1,000 that two threads were the first to mark, in order, and how many of these have a flag then.
fn marked_by_two<R: Threads + Sync>(
    rt: &R,
    alloc: Global,
) -> Result<Option<(Vec<u32>, u32)>, AllocError> {
    let (flags, mut seats) = MatchFlags::new(alloc, 1000, 2)?;
    let Some(one) = seats.pop() else {
        return Ok(None);
    };
    let Some(other) = seats.pop() else {
        return Ok(None);
    };
    let ((one, firsts), (other, more)) = join(
        rt,
        || mark_all(alloc, &flags, one, 1000),
        || mark_all(alloc, &flags, other, 1000),
    );
    let mut firsts = firsts?;
    firsts.extend_from_slice(more?.as_slice())?;
    firsts.sort()?;
    seats.push(one)?;
    seats.push(other)?;
    let closed = flags.close(seats);
    let mut set = 0_u32;
    for key in 0..1000 {
        if closed.is_set(key) {
            set = set.saturating_add(1);
        }
    }
    Ok(Some((firsts, set)))
}

/// Appends how keys are marked by one thread, and whether two threads mark each key first once.
pub(crate) fn tell<R: Threads + Sync>(
    rt: &R,
    alloc: Global,
    answers: &mut String,
) -> Result<(), AllocError> {
    tell_thrice(alloc, answers)?;
    answers.push_str("# two threads mark 1,000 keys each\n")?;
    let Some((firsts, set)) = marked_by_two(rt, alloc)? else {
        return answers.push_str("no seat\n");
    };
    let all: Vec<u32> = Vec::from_iter(alloc, 0..1000)?;
    let each = firsts.as_slice() == all.as_slice();
    answers.push_str(format!(in alloc; "each first once: {each}; flags: {set}\n")?.as_str())
}
