//! Source clusters: packages that are built from one source package at one version. Their partition, and the top of each.
//!
//! Keys are sorted by source, source version and version without its rebuild suffix; clusters are runs of equal keys.
#![tactic(auto)]

mod cluster_list;
mod finding;
mod key_list;
mod laws;
mod topmost;

pub use cluster_list::Clusters;
pub use finding::clusters_of;
pub use key_list::Keys;
pub use laws::{clustered_is_an_equivalence, partitions_are_one, tops_are_one};
