//! The repository of a few stanzas.
use dist_package::read_packages;
use dist_repo::Repository;
use std::alloc::Global;

/// The repository of the stanzas of a Packages file, of which there are few.
pub fn repository(alloc: Global, stanzas: &str) -> Option<Repository> {
    read_packages(alloc, stanzas.as_bytes(), 100).ok()
}
