//! What makes the commands' contracts sound ones.

ghost use Rattle.pipe_cli.specs.Commands.{Request, contract_of};
ghost use Rattle.pipe_cli.specs.Contract.{IsLawful};
ghost use Rattle.pipe_cli.specs.OptimizedRuns.{OptimizedTextGivesTheRows, OptimizedTextRuns};

/// Of each command: bytes spell one input at most, an input that may be run isn't refused, and there is one error at
/// most by which one is refused; so the causes of two statuses never hold at once. It does nothing.
pub fn commands_are_lawful()
    ensures { (asked : Request) → IsLawful (contract_of asked) }
{}

/// Of the text that `optimize` writes: a run on it ends well where the given job's nodes are within their limit, and
/// writes the lines that a run on the given job writes. It does nothing.
pub fn optimized_text_runs()
    ensures runs { OptimizedTextRuns }
    ensures rows { OptimizedTextGivesTheRows }
{}
