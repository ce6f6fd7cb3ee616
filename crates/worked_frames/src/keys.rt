//! Works encodings of keys out: prints the bytes of rows, what they decode to, how they are ordered, and hashes.

mod appended;
mod digits;
mod equality;
mod faults;
mod hashes;
mod ordered;
mod orders;
mod values;

use std::alloc::Global;
use std::io;

/// Prints what each call gives.
pub(crate) fn print_all(rt: &impl Print, alloc: Global) -> io::Result<()> {
    equality::print_all(rt, alloc)?;
    ordered::print_all(rt, alloc)?;
    orders::print_all(rt, alloc)?;
    faults::print_all(rt, alloc)?;
    appended::print_all(rt, alloc)?;
    hashes::print_all(rt)
}
