//! The package of a name, found by halving.
ghost use Rattle.std.specs.Prelude.{◌≡◌, ◌↔◌, IsTrue, MatchOption};
ghost use Rattle.dist_repo.specs.PackageList.{IsPackageAnd};
ghost use Rattle.dist_archive.specs.Steps.{IsHeld};

use dist_repo::Repository;
use std::cmp::Ordering;

/// The number of a package of a repository that has a name.
pub(crate) fn number_named(repo: &Repository, name: &[u8]) -> Option<u32>
    ensures { MatchOption result (¬ IsHeld repo.now.packages name.now) (λ number. IsPackageAnd repo.now.packages number (λ p. p.name ≡ name.now)) }
{
    let mut low = 0;
    let mut high = repo.len();
    while low < high {
        let middle = low + (high - low) / 2;
        match repo.package(middle).name.bytes().cmp(name) {
            Ordering::Less => low = middle + 1,
            Ordering::Equal => return Some(middle),
            Ordering::Greater => high = middle,
        }
    }
    None
}

/// Whether a package of a repository has a name.
pub(crate) fn is_named(repo: &Repository, name: &[u8]) -> bool
    ensures { IsTrue result ↔ IsHeld repo.now.packages name.now }
{
    number_named(repo, name).is_some()
}
