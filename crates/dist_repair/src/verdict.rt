//! The verdict on a file.
use crate::repair::Repair;
use dist_cert::CertFault;

/// What a first line asks of, and its limit.
#[derive(Clone, Copy, Debug)]
pub struct RepairHeader {
    /// How many derived lines a question has that is left undecided, at least.
    pub limit: u32,
    /// The package, by its number from 0.
    pub package: u32,
    /// The most clusters that are counted to.
    pub most: u32,
}

/// Whether a file is accepted.
#[derive(Debug, Drop)]
pub enum RepairVerdict {
    /// With its first line and its answer.
    Accepted(RepairHeader, Repair),
    /// With the first fault.
    Refused(CertFault),
}
