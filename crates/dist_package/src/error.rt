//! What is wrong with a Packages file, and where.
use dist_relation::RelationError;
use dist_version::VersionError;
use thiserror::Error;

/// The fields that have relations, in the order in which they are read.
#[derive(Clone, Copy, Debug, PartialEq, Eq)]
pub enum RelationField {
    PreDepends,
    Depends,
    Conflicts,
    Breaks,
    Provides,
}

/// What is wrong with a stanza.
#[derive(Clone, Copy, Debug, PartialEq, Eq)]
pub enum Kind {
    NoColon,
    BadFieldName,
    OrphanContinuation,
    DoubleField,
    NoPackage,
    BadPackageName,
    NoVersion,
    BadVersionText(VersionError),
    BadSource,
    BadArchitecture,
    TwoArchitectures,
    Relation(RelationField, RelationError),
    /// An earlier package, which came with this line, has the same name and an equal version, and differs.
    Clash(u64),
}

/// A fault of a Packages file, with the line of the stanza or the field that has it.
#[derive(Clone, Copy, Debug, PartialEq, Eq)]
pub struct Fault {
    pub line: u64,
    pub kind: Kind,
}

/// Why a Packages file is no repository.
#[derive(Clone, Copy, Debug, PartialEq, Eq, Error)]
pub enum PackagesError {
    /// The first fault of the file.
    #[error("bad packages")]
    Bad(Fault),
    /// The file has more stanzas than are allowed.
    #[error("too many stanzas")]
    TooMany,
    /// There is no memory for the packages.
    #[error("out of memory")]
    NoMemory,
}
