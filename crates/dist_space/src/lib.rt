//! The space of the futures of a repository: its variables with what they mean, in their order, and which of them an atom
//! matches.
//!
//! A variable is found by a guess that is tested, and by halving where the guess is wrong. No package of a future is ever made
//! but its example. Changing the order of variables changes every certificate of the futures.
#![tactic(auto)]

mod bounds;
mod entry_order;
mod errors;
mod exampled;
mod frame;
mod meaning;
mod meaning_match;
mod numbering;
mod place;
mod places;
mod space;
mod space_laws;

pub use bounds::{matches_moved, meets_bound};
pub use errors::SpaceError;
pub use meaning::Meaning;
pub use space::{Space, space_of};
pub use space_laws::{packages_come_first, spaces_are_one, spaces_are_there};
