//! Operators whose flush goes partition by partition.

ghost use Rattle.std.specs.Prelude.{◌≡◌, ℕ, ◌<◌, List, true, false};
ghost use Rattle.pipe_schema.specs.Rows.{Row};
ghost use Rattle.pipe_schema.specs.declared.field.Field.{Field};

use crate::operator::Operator;

/// An operator that may keep rows of its built side, which flushes give, one for each partition of what all lanes share.
pub trait FlushParts: Operator {
    /// It keeps such rows.
    ghost keeps: { Self → Type 0 };

    /// How many partitions a shared value has that are to be flushed.
    ghost parts: { Self.Shared → ℕ };

    /// What the flush of a partition gives.
    ghost part_of: { Self.Shared → ℕ → List Row };

    /// How many partitions are to be flushed: none where no rows are kept.
    fn part_count(shared: &Self::Shared) -> u32
        ensures { result ≡ parts shared.now };

    /// Begins the flush of a partition. Afterwards a flush is due until the partition's last piece was given.
    fn begin_flush(&mut self, part: u32)
        requires keeps { keeps self.old }
        requires undue { Self.flushing self.old ≡ false }
        ensures takes { (s : List Field) → Self.takes self.old s → Self.takes self.new s }
        ensures output { Self.output self.new ≡ Self.output self.old }
        ensures flushed { Self.flushed self.new ≡ Self.flushed self.old }
        ensures suits { (s : Self.Shared) → Self.suits self.old s → Self.suits self.new s }
        ensures seated { (s : Self.Shared) → Self.seated self.old s → Self.seated self.new s }
        ensures work { Self.work self.new ≡ Self.work self.old }
        ensures acts { Self.acts self.new ≡ Self.acts self.old }
        ensures begun { Self.flushing self.new ≡ true }
        ensures closed { (s : Self.Shared) → Self.closed self.old s → part < parts s →
            Self.closed self.new s }
        ensures owed { (s : Self.Shared) → Self.closed self.old s → part < parts s →
            Self.owed self.new s ≡ part_of s part };

    /// An operator keeps rows where a shared value that was made for it has partitions to be flushed.
    ghost kept: { (op : Self) (s : Self.Shared) (n : ℕ) → Self.closed op s → n < parts s → keeps op };
}
