//! What a checker says of a file.
use crate::explained::Explained;
use dist_cert::CertFault;

/// What the first line of a file says.
#[derive(Clone, Copy, Debug, PartialEq, Eq)]
pub struct ExplainHeader {
    /// The limit of derived lines.
    pub limit: u32,
    /// The package, from 0.
    pub package: u32,
}

/// The answer on a text that was read.
#[derive(Debug, Drop)]
pub enum ExplainVerdict {
    /// The file is accepted, with this first line and this answer.
    Accepted(ExplainHeader, Explained),
    /// It is refused, with its first fault.
    Refused(CertFault),
}
