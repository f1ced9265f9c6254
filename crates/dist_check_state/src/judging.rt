//! The first fault of a claim or of the end.
ghost use Rattle.std.specs.Prelude.{◌≡◌};
ghost use Rattle.dist_check_state.specs.State.{TellsClaim, TellsEnd, is_next};

use dist_cert::CertCause;

/// Whether a claim on a package is the next one, and the package is not above the last.
pub(crate) fn is_next(next: u32, packages: u32, package: u32) -> bool
    ensures { result ≡ is_next next packages «package» }
{
    package == next && package <= packages
}

/// Of a claim that holds, or does not.
pub(crate) fn judge_claim(next: bool, holds: bool) -> Option<CertCause>
    ensures { TellsClaim next holds result }
{
    if !next {
        return Some(CertCause::OutOfOrder);
    }
    if !holds {
        return Some(CertCause::WrongClaim);
    }
    None
}

/// Of the line of the end.
pub(crate) fn judge_end(next: u32, packages: u32) -> Option<CertCause>
    ensures { TellsEnd next packages result }
{
    if next <= packages {
        return Some(CertCause::Incomplete);
    }
    None
}
