//! Plans: steps that lead to a later archive, and why there are none.
ghost use Rattle.std.specs.Prelude.{◌≡◌, ◌<◌, Some, length, slice_get};

use crate::step::Step;
use std::alloc::AllocError;
use std::marker::Model;

/// Steps, one after another.
#[derive(Drop)]
pub struct Plan {
    pub(crate) steps: Vec<Step>,
}

impl Model for Plan {
    ghost use Rattle.std.specs.Prelude.{List};
    ghost use Rattle.dist_archive.specs.declared.step.Step.{Step};

    ghost Value = { List Step };

    ghost view = { λ p. p.steps.items };
}

impl Plan {
    /// How many steps there are.
    pub fn len(&self) -> usize
        ensures { result ≡ length self.now }
    {
        self.steps.len()
    }

    /// The step at a place, from 0.
    pub fn get(&self, place: usize) -> &Step
        requires { place < length self.now }
        ensures { slice_get self.now place ≡ Some result.now }
    {
        &self.steps[place]
    }
}

/// Why no plan leads to a later archive.
#[derive(Clone, Copy, Debug, PartialEq, Eq)]
pub enum ReachError {
    /// It is no future of the repository: the package of a number is the first that does not fit.
    NotAFuture(u32),
    NoMemory,
}

impl From<AllocError> for ReachError {
    ghost use Rattle.dist_archive.specs.declared.plan.ReachError.TheVariants.{NoMemory};

    ghost from_gives = { λ _ e. e ≡ NoMemory };

    fn from(_: AllocError) -> ReachError {
        ReachError::NoMemory
    }
}
