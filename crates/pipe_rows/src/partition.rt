//! Which partition a key belongs to, and how many partitions there are.

ghost use Rattle.std.specs.Prelude.{◌≡◌, ◌<◌, ◌≤◌, ◌^◌};
ghost use Rattle.pipe_rows.specs.Partition.{partition_of_hash, IsPartitionCount};

/// The partition of a hash among so many: the hash modulo their number.
pub fn partition_of(h: u64, parts: u32) -> u32
    requires { 0 < parts }
    ensures { result ≡ partition_of_hash parts h }
{
    (h % u64::from(parts)) as u32
}

/// The number of partitions of so many workers: the smallest power of two that isn't below their number.
pub fn partition_count(workers: u32) -> u32
    requires { workers ≤ 2 ^ 31 }
    ensures { IsPartitionCount workers result }
{
    workers.next_power_of_two()
}
