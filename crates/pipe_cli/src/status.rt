//! Why the program gives no rows: the status that it ends with, and the line that it notes.

ghost use Rattle.std.specs.Prelude.{◌≡◌};
ghost use Rattle.pipe_cli.specs.Status.{line_of, status_of};

use pipe_schema::Bytes;
use std::alloc::AllocError;

/// Why there are no rows.
#[derive(Debug, Drop)]
pub enum Refusal {
    /// The words are none of the commands.
    BadWords,
    /// A call on the input failed.
    ReadFault,
    /// The input is longer than a job may be.
    TooLong,
    /// The input is not JSON.
    NotJson,
    /// The input spells no job.
    NotJob,
    /// A number of the job is out of its range, or its plan has a fault: the line tells which.
    Fault(Bytes),
    /// The plan has too many nodes, or a node too many rows: the line tells which.
    TooMany(Bytes),
    /// The stop check said yes.
    Stopped,
    /// A call on the output failed.
    WriteFault,
    /// Want of memory.
    Memory,
}

impl From<AllocError> for Refusal {
    ghost use Rattle.std.specs.Prelude.{◌≡◌};
    ghost use Rattle.pipe_cli.specs.declared.status.Refusal.TheVariants.{Memory};

    ghost from_gives = { λ _ refusal. refusal ≡ Memory };

    fn from(_error: AllocError) -> Refusal {
        Refusal::Memory
    }
}

impl Refusal {
    /// The status that the program ends with.
    pub fn status(&self) -> u8
        ensures { result ≡ status_of self.now }
    {
        match self {
            Refusal::BadWords => 1,
            Refusal::ReadFault => 2,
            Refusal::TooLong => 3,
            Refusal::NotJson => 4,
            Refusal::NotJob => 5,
            Refusal::Fault(_) => 6,
            Refusal::TooMany(_) => 7,
            Refusal::Stopped => 8,
            Refusal::WriteFault => 9,
            Refusal::Memory => 10,
        }
    }

    /// The line that the program notes.
    pub fn line(&self) -> &[u8]
        ensures { result.now ≡ line_of self.now }
    {
        match self {
            Refusal::BadWords => "error 1: bad words\n".as_bytes(),
            Refusal::ReadFault => "error 2: read fault\n".as_bytes(),
            Refusal::TooLong => "error 3: job too long\n".as_bytes(),
            Refusal::NotJson => "error 4: not JSON\n".as_bytes(),
            Refusal::NotJob => "error 5: not a job\n".as_bytes(),
            Refusal::Fault(line) => line.as_slice(),
            Refusal::TooMany(line) => line.as_slice(),
            Refusal::Stopped => "error 8: stopped\n".as_bytes(),
            Refusal::WriteFault => "error 9: write fault\n".as_bytes(),
            Refusal::Memory => "error 10: out of memory\n".as_bytes(),
        }
    }
}
