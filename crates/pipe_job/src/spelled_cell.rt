//! Values of fixed width whose spelling is that of their cells.

ghost use Rattle.std.specs.Prelude.{◌≡◌, refl, Some};
ghost use Rattle.pipe_job.specs.Shape.{is_value};
ghost use Rattle.pipe_job.specs.Spelling.{cell_spelling, FitsType};

use crate::spelled::Spelled;
use pipe_column::Native;

/// What a column of fixed width holds: it is spelled as the cell of a row is.
pub trait SpelledCell: Native + Spelled {
    /// The test of its spelling is that of the cell.
    ghost same_shape: { is_value Self.dtype_of ≡ Self.shape };

    /// A value is spelled as its cell.
    ghost same_spelling: { (x : Self) → Self.spelling x ≡ cell_spelling (Self.cell (Some x)) };

    /// A value that fits is a cell that fits.
    ghost same_range: { (x : Self) → Self.fits x → FitsType Self.dtype_of (Self.cell (Some x)) };
}

impl SpelledCell for i32 {
    ghost same_shape = { refl };

    ghost same_spelling = { λ x. refl };

    ghost same_range = { λ x h. (refl, h) };
}

impl SpelledCell for i64 {
    ghost same_shape = { refl };

    ghost same_spelling = { λ x. refl };

    ghost same_range = { λ x h. (refl, h) };
}

impl SpelledCell for u32 {
    ghost same_shape = { refl };

    ghost same_spelling = { λ x. refl };

    ghost same_range = { λ x h. (refl, h) };
}

impl SpelledCell for u64 {
    ghost same_shape = { refl };

    ghost same_spelling = { λ x. refl };

    ghost same_range = { λ x h. (refl, h) };
}

impl SpelledCell for bool {
    ghost same_shape = { refl };

    ghost same_spelling = { λ x. refl };

    ghost same_range = { λ x h. refl };
}

impl SpelledCell for i128 {
    ghost same_shape = { refl };

    ghost same_spelling = { λ x. refl };

    ghost same_range = { λ x h. (refl, h) };
}
