//! The search for a repair: how few source clusters must move so that a package can be installed.
//!
//! The first question is on the package alone. Then it asks where none, one, two, and so on of the clusters may move, until an
//! installation has as few as the last refuted question allows, a question is left undecided, or the most is reached. Behind one
//! that is left undecided it asks below the upper bound, while installations are found there. What is found is noted as the
//! checker notes it (dist_repair), so that the file is accepted with the answer.
#![tactic(auto)]

mod file;
mod search;
mod shunned;

pub use file::repair;
