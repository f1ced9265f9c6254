//! What is wrong with a journal, and where.
ghost use Rattle.std.specs.Prelude.{◌≡◌};

use dist_archive::StepError;
use std::alloc::AllocError;

/// What is wrong with a line of a journal.
#[derive(Clone, Copy, Debug, PartialEq, Eq)]
pub enum JournalFault {
    /// It is not blank, and stands before the first step line or behind a removal.
    Stray,
    /// It is a step line, and says no step.
    BadStep,
    /// No package of the repository has the name of the upload.
    UnknownName,
    /// It is a part of a block that is no Packages file.
    BadBlock,
    /// The archive refuses the step.
    Refused(StepError),
}

/// Why a journal is not followed to its end.
#[derive(Clone, Copy, Debug, PartialEq, Eq)]
pub enum FollowError {
    /// The first fault, and the line that has it.
    Bad(u64, JournalFault),
    /// A block has more stanzas than are allowed.
    TooMany,
    NoMemory,
}

impl From<AllocError> for FollowError {
    ghost use Rattle.dist_journal.specs.declared.fault.FollowError.TheVariants.{NoMemory};

    ghost from_gives = { λ _ e. e ≡ NoMemory };

    fn from(_: AllocError) -> FollowError {
        FollowError::NoMemory
    }
}
