//! What a checker says of a certificate.
use dist_cert::{CertFault, Claims, Header};
use dist_space::Space;

/// The answer on a text that was read.
#[derive(Debug, Drop)]
pub enum Verdict {
    /// The certificate is accepted, with this first line and these claims.
    Accepted(Header, Claims),
    /// It is refused, with its first fault.
    Refused(CertFault),
}

/// A verdict, and the space of futures that an accepted certificate is judged by, where it was wanted.
#[derive(Drop)]
pub struct Judged {
    pub verdict: Verdict,
    pub space: Option<Space>,
}
