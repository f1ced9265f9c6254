//! The lines of a certificate as values, and what an accepted one claims.
use crate::lists::{Literals, Numbers, Pairs};

/// What a certificate claims of each package.
#[derive(Clone, Copy, Debug, PartialEq, Eq)]
pub enum CertKind {
    Strong,
    Outdated,
    Challenged,
}

/// The first line of a certificate.
#[derive(Clone, Copy, Debug, PartialEq, Eq)]
pub struct Header {
    pub kind: CertKind,
    /// How many derived lines close a question as undecided.
    pub limit: u32,
    /// The number of packages.
    pub packages: u32,
    /// The number of variables.
    pub variables: u32,
    /// The number of input clauses.
    pub clauses: u32,
    /// Whether installations have all essential names.
    pub essential: bool,
}

/// A line of a certificate after the first. Its numbers are the line's, from 1.
#[derive(Debug, Drop)]
pub enum CertRecord {
    /// `q`: opens a question with these assumptions.
    Question(Literals),
    /// `d`: a derived clause, and the hints by which it follows.
    Derived(Literals, Numbers),
    /// `f`: the open question's assumptions are refuted, by these hints.
    Refuted(Numbers),
    /// `m`: an installation, by its true variables.
    Installation(Numbers),
    /// `u`: the open question is undecided.
    Undecided,
    /// `x`: the package is not installable.
    NotInstallable(u32),
    /// `y`: what the kind asks of the package is undecided.
    Unknown(u32),
    /// `s`: the package, installations, the packages on which it depends strongly, and the undecided ones.
    Strong(u32, Numbers, Numbers, Numbers),
    /// `o`: the package is outdated.
    Outdated(u32),
    /// `a`: the package is installable in a future, by this installation.
    Alive(u32, u32),
    /// `c`: the package, installations, the pairs of cluster and class that challenge it, and the undecided ones.
    Challenged(u32, Numbers, Pairs, Pairs),
    /// `e`: the end.
    End,
}

/// What an accepted certificate claims of one package. Its numbers are from 0.
#[derive(Debug, Drop)]
pub enum Claim {
    /// The package is not installable.
    Uninstallable,
    /// Nothing is claimed.
    Unknown,
    /// The packages on which it depends strongly, and the undecided ones.
    Strong(Numbers, Numbers),
    /// The package is outdated.
    Outdated,
    /// The package is not outdated.
    Alive,
    /// The pairs of cluster and class that challenge it, and the undecided ones.
    Challenged(Pairs, Pairs),
}
