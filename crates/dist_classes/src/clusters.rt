//! The source clusters of a repository's packages.
ghost use Rattle.std.specs.Prelude.{◌≡◌, ◌<◌, IfOk, length, map, OnOk, []};
ghost use Rattle.dist_classes.specs.Answers.{AreClustersOf, member_of};

use dist_cluster::{Clusters, Keys, clusters_of};
use dist_repo::Repository;
use std::alloc::{AllocError, Global};

/// Adds what clusters know of all packages, in their order, where nothing is known.
fn add_keys(keys: &mut Keys, repo: &Repository) -> Result<(), AllocError>
    requires { keys.old ≡ [] }
    ensures { OnOk result (keys.new ≡ map member_of repo.now.packages) }
{
    for number in 0..repo.len() {
        let package = repo.package(number);
        keys.add(
            package.source.bytes(),
            &package.source_version,
            &package.version,
        )?;
    }
    Ok(())
}

/// What clusters know of all packages, in their order.
fn keys_of(alloc: Global, repo: &Repository) -> Result<Keys, AllocError>
    ensures { IfOk result (λ keys. keys ≡ map member_of repo.now.packages) }
{
    let mut keys = Keys::new(alloc);
    match add_keys(&mut keys, repo) {
        Ok(()) => Ok(keys),
        Err(error) => {
            drop(keys);
            Err(error)
        }
    }
}

/// The clusters of the packages of a repository, by their numbers.
pub fn repository_clusters(alloc: Global, repo: &Repository) -> Result<Clusters, AllocError>
    requires { length repo.now.packages < 4294967295 }
    ensures { IfOk result (AreClustersOf repo.now) }
{
    let keys = keys_of(alloc, repo)?;
    let clusters = clusters_of(alloc, &keys);
    drop(keys);
    clusters
}
