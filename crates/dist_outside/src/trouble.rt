//! What can go wrong outside, and in work that reads or writes.
ghost use Rattle.std.specs.Prelude.{◌≡◌};

use std::alloc::AllocError;

/// Why a call of a sink or a desk was refused.
#[derive(Clone, Copy, Debug, PartialEq, Eq)]
pub enum Trouble {
    /// The device failed.
    Failed,
    /// There was no memory for the call.
    NoMemory,
}

/// Which of the stated limits was passed.
#[derive(Clone, Copy, Debug, PartialEq, Eq)]
pub enum What {
    Bytes,
    Stanzas,
    Variables,
    Clauses,
    Literals,
    Lines,
    LineLiterals,
    Certificate,
    RecordLine,
}

/// Why work that reads or writes was given up.
#[derive(Clone, Copy, Debug, PartialEq, Eq)]
pub enum WorkError {
    /// The desk failed while it read.
    ReadFault,
    /// The desk or the sink failed while it wrote.
    WriteFault,
    /// A limit was passed.
    TooLarge(What),
    /// There was no memory.
    NoMemory,
}

impl From<AllocError> for WorkError {
    ghost use Rattle.dist_outside.specs.declared.trouble.WorkError.TheVariants.{NoMemory};
    ghost use Rattle.std.specs.Prelude.{◌≡◌};

    ghost from_gives = { λ _ error. error ≡ NoMemory };

    fn from(_: AllocError) -> WorkError {
        WorkError::NoMemory
    }
}
