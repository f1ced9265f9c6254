//! Faults of first lines.
ghost use Rattle.std.specs.Prelude.{◌≡◌};

use dist_cert::{CertCause, CertFault, ReadCertError};

/// The fault of a first line that is none of its kind, or has a number that does not fit.
pub fn bad_heading() -> ReadCertError
    ensures { result ≡ ReadCertError.Bad (record { line = 1; cause = CertCause.BadHeader }) }
{
    ReadCertError::Bad(CertFault {
        line: 1,
        cause: CertCause::BadHeader,
    })
}
