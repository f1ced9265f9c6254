//! What can be wrong with a certificate, and why reading one was given up.
ghost use Rattle.std.specs.Prelude.{◌≡◌};

use dist_outside::WorkError;
use std::alloc::AllocError;

/// What is wrong with a line of a certificate.
#[derive(Clone, Copy, Debug, PartialEq, Eq)]
pub enum CertCause {
    BadHeader,
    BadRecord,
    Truncated,
    LineTooLong,
    OutOfRange,
    UnknownLine,
    BadLine,
    NotAnInstallation,
    NotAFuture,
    WrongClaim,
    Incomplete,
    LimitNotReached,
    NotNew,
    OutOfOrder,
}

/// A line that is wrong, numbered from 1, and what is wrong with it.
#[derive(Clone, Copy, Debug, PartialEq, Eq)]
pub struct CertFault {
    pub line: u64,
    pub cause: CertCause,
}

/// Why no header and no record was read.
#[derive(Clone, Copy, Debug, PartialEq, Eq)]
pub enum ReadCertError {
    /// The text is no certificate.
    Bad(CertFault),
    /// The work was given up.
    Work(WorkError),
}

impl From<AllocError> for ReadCertError {
    ghost use Rattle.dist_cert.specs.declared.faults.ReadCertError.TheVariants.{Work};
    ghost use Rattle.dist_outside.specs.declared.trouble.WorkError.TheVariants.{NoMemory};
    ghost use Rattle.std.specs.Prelude.{◌≡◌};

    ghost from_gives = { λ _ error. error ≡ Work NoMemory };

    fn from(_: AllocError) -> ReadCertError {
        ReadCertError::Work(WorkError::NoMemory)
    }
}

impl From<WorkError> for ReadCertError {
    ghost use Rattle.dist_cert.specs.declared.faults.ReadCertError.TheVariants.{Work};
    ghost use Rattle.std.specs.Prelude.{◌≡◌};

    ghost from_gives = { λ work error. error ≡ Work work };

    fn from(work: WorkError) -> ReadCertError {
        ReadCertError::Work(work)
    }
}
