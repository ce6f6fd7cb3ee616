//! Integers whose arithmetic wraps at their width.

ghost use Rattle.std.specs.Prelude.{◌≡◌, ◌+◌, ◌-◌, ◌*◌, ◌%◌, ◌^◌, Some, None, refl};
ghost use Rattle.std.specs.Int.{int_wrapping_add, int_wrapping_sub, int_wrapping_mul, w32, w64, w128};
ghost use Rattle.pipe_expr.specs.Nullables.{IsOnCells};
ghost use Rattle.pipe_expr.specs.Values.{sum_of, difference_of, product_of};

use pipe_column::Native;

/// An integer of a fixed width.
pub(crate) trait Integer: Native {
    ghost sum: { Self → Self → Self };

    ghost difference: { Self → Self → Self };

    ghost product: { Self → Self → Self };

    /// The sum, which wraps.
    fn sum(self, other: Self) -> Self
        ensures { result ≡ sum self other };

    /// The difference, which wraps.
    fn difference(self, other: Self) -> Self
        ensures { result ≡ difference self other };

    /// The product, which wraps.
    fn product(self, other: Self) -> Self
        ensures { result ≡ product self other };

    /// It is the sum of cells.
    ghost sums: { IsOnCells Self.cell sum sum_of };

    /// It is the difference of cells.
    ghost differences: { IsOnCells Self.cell difference difference_of };

    /// It is the product of cells.
    ghost products: { IsOnCells Self.cell product product_of };
}

impl Integer for i32 {
    ghost sum = { int_wrapping_add w32 };

    ghost difference = { int_wrapping_sub w32 };

    ghost product = { int_wrapping_mul w32 };

    ghost sums = { elim [ Some a ↦ elim [ Some b ↦ refl | None ↦ refl ] | None ↦ elim [ Some b ↦ refl | None ↦ refl ] ] };

    ghost differences = { elim [ Some a ↦ elim [ Some b ↦ refl | None ↦ refl ] | None ↦ elim [ Some b ↦ refl | None ↦ refl ] ] };

    ghost products = { elim [ Some a ↦ elim [ Some b ↦ refl | None ↦ refl ] | None ↦ elim [ Some b ↦ refl | None ↦ refl ] ] };

    fn sum(self, other: i32) -> i32 {
        self.wrapping_add(other)
    }

    fn difference(self, other: i32) -> i32 {
        self.wrapping_sub(other)
    }

    fn product(self, other: i32) -> i32 {
        self.wrapping_mul(other)
    }
}

impl Integer for i64 {
    ghost sum = { int_wrapping_add w64 };

    ghost difference = { int_wrapping_sub w64 };

    ghost product = { int_wrapping_mul w64 };

    ghost sums = { elim [ Some a ↦ elim [ Some b ↦ refl | None ↦ refl ] | None ↦ elim [ Some b ↦ refl | None ↦ refl ] ] };

    ghost differences = { elim [ Some a ↦ elim [ Some b ↦ refl | None ↦ refl ] | None ↦ elim [ Some b ↦ refl | None ↦ refl ] ] };

    ghost products = { elim [ Some a ↦ elim [ Some b ↦ refl | None ↦ refl ] | None ↦ elim [ Some b ↦ refl | None ↦ refl ] ] };

    fn sum(self, other: i64) -> i64 {
        self.wrapping_add(other)
    }

    fn difference(self, other: i64) -> i64 {
        self.wrapping_sub(other)
    }

    fn product(self, other: i64) -> i64 {
        self.wrapping_mul(other)
    }
}

impl Integer for i128 {
    ghost sum = { int_wrapping_add w128 };

    ghost difference = { int_wrapping_sub w128 };

    ghost product = { int_wrapping_mul w128 };

    ghost sums = { elim [ Some a ↦ elim [ Some b ↦ refl | None ↦ refl ] | None ↦ elim [ Some b ↦ refl | None ↦ refl ] ] };

    ghost differences = { elim [ Some a ↦ elim [ Some b ↦ refl | None ↦ refl ] | None ↦ elim [ Some b ↦ refl | None ↦ refl ] ] };

    ghost products = { elim [ Some a ↦ elim [ Some b ↦ refl | None ↦ refl ] | None ↦ elim [ Some b ↦ refl | None ↦ refl ] ] };

    fn sum(self, other: i128) -> i128 {
        self.wrapping_add(other)
    }

    fn difference(self, other: i128) -> i128 {
        self.wrapping_sub(other)
    }

    fn product(self, other: i128) -> i128 {
        self.wrapping_mul(other)
    }
}

impl Integer for u32 {
    ghost sum = { λ a b. (a + b) % 2 ^ 32 };

    ghost difference = { λ a b. (a + (2 ^ 32 - b)) % 2 ^ 32 };

    ghost product = { λ a b. (a * b) % 2 ^ 32 };

    ghost sums = { elim [ Some a ↦ elim [ Some b ↦ refl | None ↦ refl ] | None ↦ elim [ Some b ↦ refl | None ↦ refl ] ] };

    ghost differences = { elim [ Some a ↦ elim [ Some b ↦ refl | None ↦ refl ] | None ↦ elim [ Some b ↦ refl | None ↦ refl ] ] };

    ghost products = { elim [ Some a ↦ elim [ Some b ↦ refl | None ↦ refl ] | None ↦ elim [ Some b ↦ refl | None ↦ refl ] ] };

    fn sum(self, other: u32) -> u32 {
        self.wrapping_add(other)
    }

    fn difference(self, other: u32) -> u32 {
        self.wrapping_sub(other)
    }

    fn product(self, other: u32) -> u32 {
        self.wrapping_mul(other)
    }
}

impl Integer for u64 {
    ghost sum = { λ a b. (a + b) % 2 ^ 64 };

    ghost difference = { λ a b. (a + (2 ^ 64 - b)) % 2 ^ 64 };

    ghost product = { λ a b. (a * b) % 2 ^ 64 };

    ghost sums = { elim [ Some a ↦ elim [ Some b ↦ refl | None ↦ refl ] | None ↦ elim [ Some b ↦ refl | None ↦ refl ] ] };

    ghost differences = { elim [ Some a ↦ elim [ Some b ↦ refl | None ↦ refl ] | None ↦ elim [ Some b ↦ refl | None ↦ refl ] ] };

    ghost products = { elim [ Some a ↦ elim [ Some b ↦ refl | None ↦ refl ] | None ↦ elim [ Some b ↦ refl | None ↦ refl ] ] };

    fn sum(self, other: u64) -> u64 {
        self.wrapping_add(other)
    }

    fn difference(self, other: u64) -> u64 {
        self.wrapping_sub(other)
    }

    fn product(self, other: u64) -> u64 {
        self.wrapping_mul(other)
    }
}
