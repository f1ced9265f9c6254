//! What depends on the kind of a certificate.
ghost use Rattle.std.specs.Prelude.{◌≡◌, ◌+◌, ◌<◌, ◌^◌};
ghost use Rattle.dist_check_group.specs.Layout.{present};
ghost use Rattle.dist_check_state.specs.State.{is_challenged, is_outdated, is_strong};

use dist_cert::CertKind;

/// Whether claims are on strong dependencies.
pub(crate) fn is_strong(kind: CertKind) -> bool
    ensures { result ≡ is_strong kind }
{
    match kind {
        CertKind::Strong => true,
        CertKind::Outdated | CertKind::Challenged => false,
    }
}

/// Whether claims are on outdated packages.
pub(crate) fn is_outdated(kind: CertKind) -> bool
    ensures { result ≡ is_outdated kind }
{
    match kind {
        CertKind::Outdated => true,
        CertKind::Strong | CertKind::Challenged => false,
    }
}

/// Whether claims are on challenges.
pub(crate) fn is_challenged(kind: CertKind) -> bool
    ensures { result ≡ is_challenged kind }
{
    match kind {
        CertKind::Challenged => true,
        CertKind::Strong | CertKind::Outdated => false,
    }
}

/// The variable of a package as it is.
pub(crate) fn present(kind: CertKind, package: u32) -> u32
    requires { «package» + 1 < 2 ^ 32 }
    ensures { result ≡ present kind «package» }
{
    match kind {
        CertKind::Strong => package,
        CertKind::Outdated | CertKind::Challenged => package + 1,
    }
}
