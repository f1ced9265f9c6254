//! What is answered of a package.
use dist_cert::Numbers;

/// Why a package can't be installed, or that it can.
#[derive(Debug, Drop)]
pub enum Explained {
    /// It is installable.
    Installable,
    /// Whether it is installable is undecided.
    Undecided,
    /// It is not installable. These relations explain it, by their numbers from 1: those that are needed, and those of which that
    /// is undecided, each list rising.
    Broken(Numbers, Numbers),
}
