//! Relation fields of Debian packages: what Depends, Conflicts and Provides values spell, by Debian Policy 7.1.
//!
//! A value is read from left to right, once. Room for its entries is counted by commas before it is read, and given back where
//! entries were blank. The grammar is a relation between a value and its items (`specs/Grammar.antt`); the first fault of a
//! value that has none is its own definition (`specs/Faults.antt`).
#![tactic(auto)]

mod atom;
mod bytes;
mod copying;
mod error;
mod laws;
mod lists;
mod name;
mod printing;
mod reading;
mod values;

pub use atom::{Atom, Bound, Op, Provide, Qualifier, satisfies};
pub use copying::TryClone;
pub use error::RelationError;
pub use laws::{faults_come, items_take_bytes, values_are_exact};
pub use lists::{Alternatives, Atoms, Entries, Items, Provides};
pub use name::Name;
pub use printing::print_alternatives;
pub use values::{read_atoms, read_depends, read_provides};
