//! The law of branches of one side.

ghost use Rattle.pipe_driver.specs.Blocks.{SidesStandTogether};

/// The branches of a well-formed plan that begin on the side of a join that is built stand one behind the other.
pub fn sides_stand_together()
    ensures { SidesStandTogether }
{}
