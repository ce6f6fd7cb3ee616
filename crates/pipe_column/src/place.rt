//! Places that a gather reads: a row number, or none where a missing value is to stand.

ghost use Rattle.std.specs.Prelude.{◌≡◌, ℕ, Option, Some, IfOk, map};
ghost use Rattle.pipe_column.specs.Column.{values_at};

use std::alloc::{AllocError, Global};

/// What names a place, or none.
pub trait Place: Copy {
    /// The place.
    ghost place: { Self → Option ℕ };

    /// The place.
    fn place(self) -> Option<usize>
        ensures { result ≡ place self };
}

impl Place for u32 {
    ghost use Rattle.std.specs.Prelude.{Some};

    ghost place = { Some };

    fn place(self) -> Option<usize> {
        Some(self as usize)
    }
}

impl Place for usize {
    ghost use Rattle.std.specs.Prelude.{Some};

    ghost place = { Some };

    fn place(self) -> Option<usize> {
        Some(self)
    }
}

impl Place for Option<u32> {
    ghost place = { λ p. p };

    fn place(self) -> Option<usize> {
        self.map(|row| row as usize)
    }
}

/// The values at these places, and a filler where there is none.
pub(crate) fn gather<T: Copy + Drop, P: Place>(
    alloc: Global,
    values: &[T],
    places: &[P],
    filler: T,
) -> Result<Vec<T>, AllocError>
    ensures { IfOk result (λ v. v.items ≡ values_at values.now filler (map P.place places.now)) }
{
    let mut made = Vec::with_capacity(alloc, places.len())?;
    for place in places {
        let value = match place.place() {
            Some(i) => values.get(i).copied().unwrap_or(filler),
            None => filler,
        };
        made.push_reserved(value);
    }
    Ok(made)
}
