//! Texts that name packages: LIST names a set, one on a line by its name and its version, and `NAME=VERSION` names one.
//!
//! Each line costs its own bytes and one look-up by name; the set is one truth value per package.
#![tactic(auto)]

mod laws;
mod line_parts;
mod list;
mod named;

pub use laws::{each_list_is_answered, lists_are_exact, names_are_exact};
pub use list::{ListError, read_list};
pub use named::package_named;
