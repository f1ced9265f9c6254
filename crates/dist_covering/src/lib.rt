//! What the claim on a challenged package names, and which pairs it asks for, by the latest installations.
//!
//! An installation of today alone may leave pairs of a cluster and a class uncovered, of the clusters that it uses (`used.rt`,
//! `covering.rt`, `open_pairs.rt`). Other known installations strike those that they cover (`striking.rt`). `planning.rt` says by which
//! installations a claim begins, and `group.rt` keeps what it is to name, and its pairs. Nothing is asked for here.
#![tactic(auto)]

mod covering;
mod group;
mod open_pairs;
mod planning;
mod recent;
mod striking;
mod used;

pub use covering::{Covering, is_today};
pub use group::Group;
pub use used::pair_at;
