//! What an answer of std means outside.
ghost use Rattle.std.specs.Prelude.{◌≡◌, ◌≤◌, ◌↔◌, IfOk, OnErr};
ghost use Rattle.std.specs.IoError.{error_kind};
ghost use Rattle.dist_outside.specs.Counts.{faults_after};

use crate::Trouble;
use std::io;
use std::io::{Error, ErrorKind};

/// Want of memory where std names the error so, and else a failure.
pub(crate) fn trouble_of(error: &Error) -> Trouble
    ensures { (result ≡ Trouble.NoMemory) ↔ (error_kind error.now ≡ ErrorKind.OutOfMemory) }
{
    if error.kind() == ErrorKind::OutOfMemory {
        Trouble::NoMemory
    } else {
        Trouble::Failed
    }
}

/// The answer, of which each error is a failure that is counted.
pub(crate) fn counted<T: Drop>(answer: io::Result<T>, faults: &mut u64) -> Result<T, Trouble>
    ensures ok { IfOk answer (λ value. result ≡ Ok value) }
    ensures err { OnErr answer (result ≡ Err Trouble.Failed) }
    ensures counted { faults.new ≡ faults_after result faults.old }
    ensures stand { faults.old ≤ faults.new }
{
    match answer {
        Ok(value) => Ok(value),
        Err(_) => {
            *faults = faults.saturating_add(1);
            Err(Trouble::Failed)
        }
    }
}
