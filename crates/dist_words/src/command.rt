//! The commands.
use dist_cert::CertKind;

/// The two files of `health PACKAGES LIST`.
#[derive(Clone, Copy, Debug)]
pub struct HealthFiles<'a> {
    pub packages: &'a str,
    pub list: &'a str,
}

/// The two files of `check`, of `check-explain` and of `check-repair PACKAGES CERT`.
#[derive(Clone, Copy, Debug)]
pub struct CertFiles<'a> {
    pub packages: &'a str,
    pub cert: &'a str,
}

/// The kind of a sweep, by the command's word, and the files and the options of `strong`, `outdated` and `challenged PACKAGES
/// CERT`.
#[derive(Clone, Copy, Debug)]
pub struct SweepWords<'a> {
    pub kind: CertKind,
    pub packages: &'a str,
    pub cert: &'a str,
    /// Whether each installation has the essential names.
    pub essential: bool,
    /// How many derived lines leave a question undecided.
    pub limit: u32,
}

/// The files and the options of `explain PACKAGES CERT`.
#[derive(Clone, Copy, Debug)]
pub struct ExplainWords<'a> {
    pub packages: &'a str,
    pub cert: &'a str,
    /// The text of `--package`, which names a package of PACKAGES.
    pub named: &'a str,
    /// How many derived lines leave a question undecided.
    pub limit: u32,
}

/// The files and the options of `repair PACKAGES CERT`.
#[derive(Clone, Copy, Debug)]
pub struct RepairWords<'a> {
    pub packages: &'a str,
    pub cert: &'a str,
    /// The text of `--package`, which names a package of the newest versions of PACKAGES.
    pub named: &'a str,
    /// To how many clusters is counted.
    pub most: u32,
    /// How many derived lines leave a question undecided.
    pub limit: u32,
}

/// The options of `try`.
#[derive(Clone, Copy, Debug)]
pub struct TryWords {
    /// How many packages the archive has.
    pub size: u32,
    pub seed: u32,
}

/// The two files of `steps PACKAGES LATER`.
#[derive(Clone, Copy, Debug)]
pub struct StepsFiles<'a> {
    pub packages: &'a str,
    pub later: &'a str,
}

/// The three files of `follow PACKAGES CERT JOURNAL`.
#[derive(Clone, Copy, Debug)]
pub struct FollowFiles<'a> {
    pub packages: &'a str,
    pub cert: &'a str,
    pub journal: &'a str,
}

/// A command with the names of its files and its options.
#[derive(Clone, Copy, Debug)]
pub enum Command<'a> {
    Health(HealthFiles<'a>),
    Classes(&'a str),
    Sweep(SweepWords<'a>),
    Check(CertFiles<'a>),
    CheckExplain(CertFiles<'a>),
    Explain(ExplainWords<'a>),
    CheckRepair(CertFiles<'a>),
    Repair(RepairWords<'a>),
    Try(TryWords),
    Steps(StepsFiles<'a>),
    Follow(FollowFiles<'a>),
}
