//! Why a value is no relation.
ghost use Rattle.std.specs.Prelude.{◌≡◌};
ghost use Rattle.dist_relation.specs.Faults.{error_at};
ghost use Rattle.dist_relation.specs.ReadingPrivate.{FitsIn, error_in};

use dist_version::VersionError;
use std::alloc::{AllocError, AllocFailed};
use thiserror::Error;

/// Why a value is no relation: its first fault, with the fault's place in the value in bytes from 0.
/// The place may be the value's length.
#[derive(Clone, Copy, Debug, PartialEq, Eq, Error)]
pub enum RelationError {
    /// No name begins here, of a package or behind a colon.
    #[error("no name at {0}")]
    BadName(usize),
    /// No operator stands here, after the opening parenthesis.
    #[error("no operator at {0}")]
    BadOp(usize),
    /// What stands here after the operator is no version.
    #[error("no version at {0}: {1}")]
    BadVersion(usize, VersionError),
    /// The closing parenthesis is missing here.
    #[error("no closing parenthesis at {0}")]
    Unclosed(usize),
    /// A bar stands here, in a value without alternatives.
    #[error("no alternatives are allowed at {0}")]
    BarNotAllowed(usize),
    /// Something else than the end, a comma or a bar follows an atom.
    #[error("something follows at {0}")]
    Trailing(usize),
    /// An operator other than `=` stands here, in a Provides value.
    #[error("only `=` is allowed at {0}")]
    OpInProvides(usize),
    /// Memory ran out, which says nothing of the value.
    #[error("out of memory")]
    NoMemory,
}

impl From<AllocError> for RelationError {
    ghost use Rattle.std.specs.Prelude.{◌≡◌};
    ghost use Rattle.dist_relation.specs.declared.error.RelationError.TheVariants.{NoMemory};

    ghost from_gives = { λ _ e. e ≡ NoMemory };

    fn from(_: AllocError) -> RelationError {
        RelationError::NoMemory
    }
}

/// What is wrong at a place.
#[derive(Clone, Copy, Debug, PartialEq, Eq)]
pub(crate) enum Problem {
    BadName,
    BadOp,
    BadVersion(VersionError),
    Unclosed,
    BarNotAllowed,
    Trailing,
    OpInProvides,
}

/// A fault, by how many bytes of the value are left from its place on.
#[derive(Clone, Copy, Debug, PartialEq, Eq)]
pub(crate) struct Fault {
    pub(crate) problem: Problem,
    pub(crate) left: usize,
}

/// Why a reader stopped.
#[derive(Clone, Copy, Debug, PartialEq, Eq)]
pub(crate) enum ReadError {
    NoMemory,
    Fault(Fault),
}

impl Problem {
    /// The error of this problem at a place.
    fn at(self, place: usize) -> RelationError
        ensures { result ≡ error_at self place }
    {
        match self {
            Problem::BadName => RelationError::BadName(place),
            Problem::BadOp => RelationError::BadOp(place),
            Problem::BadVersion(fault) => RelationError::BadVersion(place, fault),
            Problem::Unclosed => RelationError::Unclosed(place),
            Problem::BarNotAllowed => RelationError::BarNotAllowed(place),
            Problem::Trailing => RelationError::Trailing(place),
            Problem::OpInProvides => RelationError::OpInProvides(place),
        }
    }
}

impl ReadError {
    /// The error in a value of so many bytes, with its place counted from the start.
    pub(crate) fn in_value(self, length: usize) -> RelationError
        requires { FitsIn length self }
        ensures { result ≡ error_in length self }
    {
        match self {
            ReadError::NoMemory => RelationError::NoMemory,
            ReadError::Fault(fault) => fault.problem.at(length - fault.left),
        }
    }
}

impl From<AllocError> for ReadError {
    ghost use Rattle.std.specs.Prelude.{◌≡◌};
    ghost use Rattle.dist_relation.specs.declared.error.ReadError.TheVariants.{NoMemory};

    ghost from_gives = { λ _ e. e ≡ NoMemory };

    fn from(_: AllocError) -> ReadError {
        ReadError::NoMemory
    }
}

impl<T: Drop> From<AllocFailed<T>> for ReadError {
    ghost use Rattle.std.specs.Prelude.{◌≡◌};
    ghost use Rattle.dist_relation.specs.declared.error.ReadError.TheVariants.{NoMemory};

    ghost from_gives = { λ _ e. e ≡ NoMemory };

    fn from(_: AllocFailed<T>) -> ReadError {
        ReadError::NoMemory
    }
}
