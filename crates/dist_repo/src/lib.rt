//! Packages of a file and their repository: which package an atom matches, which packages are in conflict, and which
//! provide a name. Here stand the definitions of the subject: match, conflict, healthy, installable, strong dependency.
//!
//! Packages stand in boxes in the order of names and versions, names in a sorted table: crafted names cannot cost the square,
//! as in a hash with a fixed seed. Beside them stands which atoms of long lists have to be asked. Asking takes no memory.
#![tactic(auto)]

mod asked_lists;
mod builder;
mod edges;
mod guesses;
mod key;
mod laws;
mod matching;
mod name_key;
mod names;
mod offers;
mod own;
mod package;
mod pairs;
mod prefix;
mod repository;
mod size;
mod spans;
mod tally;

pub use builder::{AddError, Added, Builder};
pub use laws::{each_stands_once, latest_is_one};
pub use name_key::NameKey;
pub use offers::Offer;
pub use package::{Package, same};
pub use repository::Repository;
