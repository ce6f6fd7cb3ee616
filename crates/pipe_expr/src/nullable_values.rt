//! What has a nullable value at each of so many rows.

ghost use Rattle.std.specs.Prelude.{◌≡◌, ◌<◌, List, Option, Some, length, map, replicate};
ghost use Rattle.pipe_column.specs.Column.{nullable, nullable_at, nullables as nullables_of};
ghost use Rattle.pipe_expr.specs.Nullables.{zip_with};

use crate::kernel::Kernel;

/// What has a nullable value at each of so many rows.
pub(crate) trait NullableValues {
    /// The type of the values.
    type Value;

    /// The values.
    ghost nullables: { Self → List (Option Self.Value) };

    /// Whether the value of a row is valid, and the value; where it isn't, any.
    fn nullable(&self, i: usize) -> (bool, Self::Value)
        requires { i < length (nullables self.now) }
        ensures { nullable result.0 result.1 ≡ nullable_at (nullables self.now) i };
}

/// The validity and the values of a column.
#[derive(Clone, Copy)]
pub(crate) struct ColumnValues<'a, T> {
    pub(crate) validity: &'a [bool],
    pub(crate) values: &'a [T],
}

#[tactic(auto, using(crate::proofs::NullableRows::nullable_rules))]
impl<'a, T: Copy> NullableValues for ColumnValues<'a, T> {
    type Value = T;

    ghost nullables = { λ s. nullables_of s.validity.now s.values.now };

    fn nullable(&self, i: usize) -> (bool, T) {
        (self.validity[i], self.values[i])
    }
}

/// The values of a column in which none is missing.
#[derive(Clone, Copy)]
pub(crate) struct ValidValues<'a, T> {
    pub(crate) values: &'a [T],
}

#[tactic(auto, using(crate::proofs::NullableRows::nullable_rules))]
impl<'a, T: Copy> NullableValues for ValidValues<'a, T> {
    type Value = T;

    ghost nullables = { λ s. map Some s.values.now };

    fn nullable(&self, i: usize) -> (bool, T) {
        (true, self.values[i])
    }
}

/// One nullable value, at each of so many rows.
#[derive(Clone, Copy)]
pub(crate) struct ScalarValue<T> {
    pub(crate) valid: bool,
    pub(crate) value: T,
    pub(crate) rows: usize,
}

#[tactic(auto, using(crate::proofs::NullableRows::nullable_rules))]
impl<T: Copy> NullableValues for ScalarValue<T> {
    type Value = T;

    ghost nullables = { λ s. replicate s.rows (nullable s.valid s.value) };

    fn nullable(&self, _i: usize) -> (bool, T) {
        (self.valid, self.value)
    }
}

/// What a kernel gives of two, row by row.
#[derive(Clone, Copy)]
pub(crate) struct Zipped<A, B, K> {
    pub(crate) left: A,
    pub(crate) right: B,
    pub(crate) kernel: K,
}

#[tactic(auto, using(crate::proofs::NullableRows::nullable_rules))]
impl<A: NullableValues, B: NullableValues<Value = A::Value>, K: Kernel<A::Value>> NullableValues
    for Zipped<A, B, K> {
    type Value = K::Output;

    ghost nullables = { λ s. zip_with K.gives (A.nullables s.left) (B.nullables s.right) };

    fn nullable(&self, i: usize) -> (bool, K::Output) {
        self.kernel
            .apply(self.left.nullable(i), self.right.nullable(i))
    }
}
