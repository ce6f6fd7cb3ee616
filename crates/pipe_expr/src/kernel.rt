//! Kernels: what operators give of two nullable values of one type.

ghost use Rattle.std.specs.Prelude.{◌≡◌, Option, Bool};
ghost use Rattle.std.specs.declared.cmp.Ordering.{Ordering};
ghost use Rattle.pipe_expr.specs.Nullables.{strictly, tested, both, either, Applies};

use crate::integer::Integer;
use std::cmp::Ordering;

/// A kernel on two nullable values, each a value with whether it is valid.
pub(crate) trait Kernel<T>: Copy {
    /// The type of what it gives.
    type Output;

    /// What it gives.
    ghost gives: { Option T → Option T → Option Self.Output };

    /// Applies it.
    fn apply(&self, left: (bool, T), right: (bool, T)) -> (bool, Self::Output)
        ensures { Applies gives left right result };
}

/// The sum, which wraps.
#[derive(Clone, Copy)]
pub(crate) struct Sum;

impl<T: Integer> Kernel<T> for Sum {
    type Output = T;

    ghost gives = { strictly T.sum };

    fn apply(&self, left: (bool, T), right: (bool, T)) -> (bool, T)
        ensures { Applies (strictly T.sum) left right result }
    {
        (left.0 & right.0, left.1.sum(right.1))
    }
}

/// The difference, which wraps.
#[derive(Clone, Copy)]
pub(crate) struct Difference;

impl<T: Integer> Kernel<T> for Difference {
    type Output = T;

    ghost gives = { strictly T.difference };

    fn apply(&self, left: (bool, T), right: (bool, T)) -> (bool, T)
        ensures { Applies (strictly T.difference) left right result }
    {
        (left.0 & right.0, left.1.difference(right.1))
    }
}

/// The product, which wraps.
#[derive(Clone, Copy)]
pub(crate) struct Product;

impl<T: Integer> Kernel<T> for Product {
    type Output = T;

    ghost gives = { strictly T.product };

    fn apply(&self, left: (bool, T), right: (bool, T)) -> (bool, T)
        ensures { Applies (strictly T.product) left right result }
    {
        (left.0 & right.0, left.1.product(right.1))
    }
}

/// A test of how two values compare.
pub(crate) trait Test: Copy {
    /// Whether an order passes.
    ghost test: { Ordering → Bool };

    /// Whether an order passes.
    fn passes(&self, order: Ordering) -> bool
        ensures { result ≡ test order };
}

/// Whether the values compare so.
#[derive(Clone, Copy)]
pub(crate) struct Compared<C> {
    pub(crate) test: C,
}

impl<T: Ord + Copy, C: Test> Kernel<T> for Compared<C> {
    type Output = bool;

    ghost gives = { strictly (tested T.cmp C.test) };

    fn apply(&self, left: (bool, T), right: (bool, T)) -> (bool, bool)
        ensures { Applies (strictly (tested T.cmp C.test)) left right result }
    {
        (left.0 & right.0, self.test.passes(left.1.cmp(&right.1)))
    }
}

/// Three-valued `and`.
#[derive(Clone, Copy)]
pub(crate) struct Both;

impl Kernel<bool> for Both {
    type Output = bool;

    ghost gives = { both };

    fn apply(&self, left: (bool, bool), right: (bool, bool)) -> (bool, bool)
        ensures { Applies both left right result }
    {
        let settled = left.0 & !left.1 | right.0 & !right.1;
        (left.0 & right.0 | settled, !settled)
    }
}

/// Three-valued `or`.
#[derive(Clone, Copy)]
pub(crate) struct Either;

impl Kernel<bool> for Either {
    type Output = bool;

    ghost gives = { either };

    fn apply(&self, left: (bool, bool), right: (bool, bool)) -> (bool, bool)
        ensures { Applies either left right result }
    {
        let settled = left.0 & left.1 | right.0 & right.1;
        (left.0 & right.0 | settled, settled)
    }
}
