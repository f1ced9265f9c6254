//! Why a run was given up. Its status and its line on `err` both come from here.
ghost use Rattle.std.specs.Prelude.{◌≡◌};
ghost use Rattle.dist_commands.specs.Refusal.{status_of, refusal_of};

use crate::status::Status;
use dist_cert::CertFault;
use dist_journal::JournalFault;
use dist_outside::{What, WorkError};
use dist_package::Fault;

/// Why a run was given up, with what its line on `err` tells.
#[derive(Clone, Copy)]
pub enum Refusal {
    BadWords,
    BadPackages(Fault),
    CertificateRefused(CertFault),
    ReadFault,
    WriteFault,
    NoMemory,
    TooLarge(What),
    BadList(u64),
    BadJournal(u64, JournalFault),
    NoSuchPackage,
}

impl Refusal {
    /// The status of a run that was given up for this.
    pub fn status(&self) -> Status
        ensures { result ≡ status_of self.now }
    {
        match self {
            Refusal::BadWords => Status::BadWords,
            Refusal::BadPackages(_) => Status::BadPackages,
            Refusal::CertificateRefused(_) => Status::CertificateRefused,
            Refusal::ReadFault => Status::ReadFault,
            Refusal::WriteFault => Status::WriteFault,
            Refusal::NoMemory => Status::NoMemory,
            Refusal::TooLarge(_) => Status::TooLarge,
            Refusal::BadList(_) => Status::BadList,
            Refusal::BadJournal(_, _) => Status::BadJournal,
            Refusal::NoSuchPackage => Status::NoSuchPackage,
        }
    }
}

/// What an error of reading or writing comes to.
pub fn refusal_of(error: WorkError) -> Refusal
    ensures { result ≡ refusal_of error }
{
    match error {
        WorkError::ReadFault => Refusal::ReadFault,
        WorkError::WriteFault => Refusal::WriteFault,
        WorkError::TooLarge(what) => Refusal::TooLarge(what),
        WorkError::NoMemory => Refusal::NoMemory,
    }
}
