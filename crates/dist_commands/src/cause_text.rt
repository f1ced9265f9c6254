//! The name of what is wrong with a certificate.
ghost use Rattle.std.specs.Prelude.{◌≡◌};
ghost use Rattle.dist_commands.specs.CauseText.{cause_text};

use dist_cert::CertCause;

/// The name of a cause.
pub(crate) fn cause_text(cause: CertCause) -> &'static [u8]
    ensures { result.now ≡ cause_text cause }
{
    match cause {
        CertCause::BadHeader => b"BadHeader",
        CertCause::BadRecord => b"BadRecord",
        CertCause::Truncated => b"Truncated",
        CertCause::LineTooLong => b"LineTooLong",
        CertCause::OutOfRange => b"OutOfRange",
        CertCause::UnknownLine => b"UnknownLine",
        CertCause::BadLine => b"BadLine",
        CertCause::NotAnInstallation => b"NotAnInstallation",
        CertCause::NotAFuture => b"NotAFuture",
        CertCause::WrongClaim => b"WrongClaim",
        CertCause::Incomplete => b"Incomplete",
        CertCause::LimitNotReached => b"LimitNotReached",
        CertCause::NotNew => b"NotNew",
        CertCause::OutOfOrder => b"OutOfOrder",
    }
}
