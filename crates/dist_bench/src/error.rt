//! Why a job has no answer.
ghost use Rattle.std.specs.Prelude.{◌≡◌};

use dist_relation::RelationError;
use dist_version::VersionError;
use std::alloc::{AllocError, AllocFailed};
use thiserror::Error;

/// Why a job has no answer.
#[derive(Clone, Copy, Debug, PartialEq, Eq, Error)]
pub enum JobError {
    /// The text is no number of clauses that a set may have.
    #[error("no number of clauses that a set may have")]
    NoCount,
    /// The text is no Packages file, or passes the stated limits.
    #[error("no Packages file within the limits")]
    NoPackages,
    /// The value of a field is no relation.
    #[error("no relation: {0}")]
    NoRelation(RelationError),
    /// A line is no version.
    #[error("no version: {0}")]
    NoVersion(VersionError),
    /// The space has more variables than it may have.
    #[error("too many variables")]
    TooManyVariables,
    /// A set would have more clauses, or more literals, than it may have.
    #[error("too many clauses")]
    TooManyClauses,
    /// Memory ran out, which says nothing of the text.
    #[error("no memory")]
    NoMemory,
}

impl From<AllocError> for JobError {
    ghost use Rattle.std.specs.Prelude.{◌≡◌};
    ghost use Rattle.dist_bench.specs.declared.error.JobError.TheVariants.{NoMemory};

    ghost from_gives = { λ _ e. e ≡ NoMemory };

    fn from(_: AllocError) -> JobError {
        JobError::NoMemory
    }
}

impl<T: Drop> From<AllocFailed<T>> for JobError {
    ghost use Rattle.std.specs.Prelude.{◌≡◌};
    ghost use Rattle.dist_bench.specs.declared.error.JobError.TheVariants.{NoMemory};

    ghost from_gives = { λ _ e. e ≡ NoMemory };

    fn from(_: AllocFailed<T>) -> JobError {
        JobError::NoMemory
    }
}
