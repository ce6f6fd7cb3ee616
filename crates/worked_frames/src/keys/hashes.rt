//! Hashes by the published vectors of FNV-1a, and partitions.

use pipe_rows::{ConstHash, Fnv, KeyHasher, partition_count, partition_of};
use std::io;

/// Prints hashes and partitions.
pub fn print_all(rt: &impl Print) -> io::Result<()> {
    for key in ["", "a", "foobar"] {
        println!(rt; "FNV-1a of {key:?}: {:016x}", Fnv.hash(key.as_bytes()))?;
    }
    println!(rt;
        "one hash for all keys: {}",
        ConstHash { value: 7 }.hash(b"a")
    )?;
    println!(rt; "partition of 11 among 4: {}", partition_of(11, 4))?;
    for workers in [0, 1, 2, 3, 4, 5, 256] {
        println!(rt;
            "partitions of {workers} workers: {}",
            partition_count(workers)
        )?;
    }
    Ok(())
}
