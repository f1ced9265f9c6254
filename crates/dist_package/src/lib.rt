//! A Packages file (Debian Policy 5.3 and chapter 7), read to its repository or to exactly its first fault.
//!
//! One pass: stanzas by dist_control, each to a package, packages to dist_repo's builder. The order of faults is that of
//! `specs/FirstFault.antt`; each text has a repository or a first fault, and never both.
#![tactic(auto)]

mod error;
mod fields;
mod laws;
mod package;
mod reader;
mod relations;
mod source;

pub use error::{Fault, Kind, PackagesError, RelationField};
pub use laws::{
    each_text_is_answered, kinds_carry_no_memory, packages_are_exact, packages_are_spelled,
    relations_take_bytes,
};
pub use reader::read_packages;
