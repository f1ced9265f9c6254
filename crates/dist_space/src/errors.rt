//! Why there is no space.
ghost use Rattle.std.specs.Prelude.{◌≡◌};

use std::alloc::AllocError;

/// Why there is no space.
#[derive(Clone, Copy, Debug, PartialEq, Eq)]
pub enum SpaceError {
    /// It has more variables than it may have.
    TooManyVariables,
    NoMemory,
}

impl From<AllocError> for SpaceError {
    ghost use Rattle.dist_space.specs.declared.errors.SpaceError.TheVariants.{NoMemory};

    ghost from_gives = { λ _ e. e ≡ NoMemory };

    fn from(_: AllocError) -> SpaceError {
        SpaceError::NoMemory
    }
}
