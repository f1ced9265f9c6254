//! Why a text is no version.
ghost use Rattle.std.specs.Prelude.{◌≡◌};

use std::alloc::AllocError;
use thiserror::Error;

/// Why a text is no version: the first of these faults that it has, in this order.
#[derive(Clone, Copy, Debug, PartialEq, Eq, Error)]
pub enum VersionError {
    /// There are no bytes.
    #[error("empty version")]
    Empty,
    /// What stands before the first colon is empty or has a byte that is no digit.
    #[error("the epoch is no number")]
    BadEpoch,
    /// The epoch is above 2147483647.
    #[error("the epoch is too large")]
    EpochTooLarge,
    /// Nothing stands between the epoch and the revision.
    #[error("empty upstream version")]
    EmptyUpstream,
    /// Nothing stands after the last hyphen.
    #[error("empty revision")]
    EmptyRevision,
    /// A byte that the upstream version or the revision may not have, by its place in the text from 0.
    #[error("byte {0} may not stand in a version")]
    BadByte(usize),
    /// Memory ran out, which says nothing of the text.
    #[error("out of memory")]
    NoMemory,
}

impl From<AllocError> for VersionError {
    ghost use Rattle.dist_version.specs.declared.error.VersionError.TheVariants.{NoMemory};

    ghost from_gives = { λ _ e. e ≡ NoMemory };

    fn from(_: AllocError) -> VersionError {
        VersionError::NoMemory
    }
}
