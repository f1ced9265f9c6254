//! What all layers share: the stated limits, lists kept flat, the words for what a reader answers, for a front of a text and
//! for the least with a property, the bytes by name, and the laws of lists and of rows.
//!
//! `Flat` keeps a list of lists in one vector of items and one of ends, so a list costs no memory of its own. A change here is
//! proved again in every crate: add a file to `specs/` rather than change one.
#![tactic(auto)]

mod pieces;

pub use pieces::Flat;

/// Bytes of a Packages file, and of a list.
pub const MAX_BYTES: u64 = 268_435_456;

/// Stanzas of a Packages file, doubles included.
pub const MAX_STANZAS: u32 = 200_000;

/// Packages of a repository that is asked.
pub const MAX_PACKAGES: u32 = 16_000_000;

/// Atoms and entries of Provides of all its packages together.
pub const MAX_RELATIONS: u64 = 268_435_456;

/// Variables of a set of clauses.
pub const MAX_VARIABLES: u32 = 16_000_000;

/// Input clauses.
pub const MAX_CLAUSES: u32 = 16_000_000;

/// Literals of all input clauses together.
pub const MAX_LITERALS: u32 = 64_000_000;

/// Derived lines.
pub const MAX_LINES: u32 = 16_000_000;

/// Literals of all derived lines together.
pub const MAX_LINE_LITERALS: u32 = 64_000_000;

/// Bytes of a certificate.
pub const MAX_CERTIFICATE: u64 = 68_719_476_736;

/// Bytes of one line of a certificate, its line feed included.
pub const MAX_RECORD_LINE: u64 = 1_073_741_824;

/// New lines of a question, where no limit is given.
pub const DEFAULT_LIMIT: u32 = 10_000;

/// The most new lines of a question that can be given.
pub const MAX_LIMIT: u32 = 1_000_000;

/// The most clusters that may be counted as moving.
pub const MAX_MOST: u32 = 64;

/// Packages of a made archive.
pub const MAX_SIZE: u32 = 2_000;
