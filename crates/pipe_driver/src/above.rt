//! What stands above a node while a plan is cut.

ghost use Rattle.std.specs.Prelude.{◌≡◌, ◌<◌, [], ◌∷◌, length, drop, slice_set, OnOk};
ghost use Rattle.pipe_driver.specs.Climbing.{step_at};

use std::alloc::{AllocError, Global};
use std::marker::Model;

/// What a path meets on its way up.
#[derive(Clone, Copy, Debug)]
pub(crate) enum Step {
    /// An operator, which the path goes through.
    Operator(u32),
    /// A sort, and whether a path went through it already: the first goes on, the others end there.
    Sort { node: u32, is_passed: bool },
    /// A join that is come to from the side that is built, where each path ends.
    Build(u32),
}

/// The steps above a node, the nearest first.
pub(crate) struct Above {
    steps: Vec<Step>,
}

impl Drop for Above {
    fn drop(self) {
        let Above { steps } = self;
        drop(steps);
    }
}

impl Model for Above {
    ghost use Rattle.std.specs.Prelude.{List, reverse};
    ghost use Rattle.pipe_driver.specs.declared.above.Step.{Step};

    ghost Value = { List Step };

    ghost view = { λ a. reverse a.steps.items };
}

impl Above {
    /// No step, which takes no memory.
    pub(crate) fn new(alloc: Global) -> Above
        ensures { result ≡ [] }
    {
        Above {
            steps: Vec::new(alloc),
        }
    }

    /// How many steps there are.
    pub(crate) fn len(&self) -> usize
        ensures { result ≡ length self.now }
    {
        self.steps.len()
    }

    /// Puts a step below the others.
    pub(crate) fn push(&mut self, step: Step) -> Result<(), AllocError>
        ensures { OnOk result (self.new ≡ step ∷ self.old) }
    {
        self.steps.push(step)?;
        Ok(())
    }

    /// Takes the nearest step away.
    pub(crate) fn pop(&mut self)
        ensures { self.new ≡ drop 1 self.old }
    {
        let _nearest = self.steps.pop();
    }

    /// The step at a place, counted from the nearest.
    pub(crate) fn get(&self, k: usize) -> Step
        requires { k < length self.now }
        ensures { result ≡ step_at self.now k }
    {
        self.steps[self.steps.len() - 1 - k]
    }

    /// Puts another step at a place, counted from the nearest.
    pub(crate) fn set(&mut self, k: usize, step: Step)
        requires { k < length self.old }
        ensures { self.new ≡ slice_set self.old k step }
    {
        let place = self.steps.len() - 1 - k;
        self.steps[place] = step;
    }
}
