//! The sides of a view.

ghost use Rattle.std.specs.Prelude.{◌≡◌};
ghost use Rattle.pipe_view.specs.Sides.{right_is_built};

/// The table into which a row is put, or from which one is taken.
#[derive(Clone, Copy, Debug, PartialEq, Eq)]
pub enum ViewSide {
    Left,
    Right,
}

/// Whether the right side is the other one.
pub(crate) fn is_right_built(side: ViewSide) -> bool
    ensures { result ≡ right_is_built side }
{
    match side {
        ViewSide::Left => true,
        ViewSide::Right => false,
    }
}
