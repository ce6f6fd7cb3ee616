//! The law of needed columns.

ghost use Rattle.pipe_rules.specs.NeedLaws.{NeedsServe};

/// A node over inputs that are narrowed to columns which include those that it needs gives the same rows, as far as its
/// own needed columns go; these have the same types.
pub fn needs_serve()
    ensures { NeedsServe }
{}
