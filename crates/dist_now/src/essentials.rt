//! The names of essential packages, each looked at once: packages stand in the order of their names, so the last essential
//! one before a package tells whether its name came before.
ghost use Rattle.std.specs.Prelude.{◌≡◌, ◌+◌, ◌↔◌, IsTrue, Some, slice_get};
ghost use Rattle.dist_now.specs.GatheringPrivate.{IsLastEssential, IsNamedBelow};

use dist_repo::{Package, Repository};

/// Whether an essential package before one has its name.
pub(crate) fn has_essential_before(
    repo: &Repository,
    last: Option<u32>,
    number: u32,
    package: &Package,
) -> bool
    requires number { slice_get repo.now.packages number ≡ Some «package».now }
    requires last { IsLastEssential repo.now number last }
    ensures { IsTrue result ↔ IsNamedBelow repo.now number «package».now.name }
{
    repo.keeps_invariant();
    match last {
        Some(before) => repo.package(before).name == package.name,
        None => false,
    }
}

/// The last essential package up to one.
pub(crate) fn last_essential(
    repo: &Repository,
    last: Option<u32>,
    number: u32,
    package: &Package,
) -> Option<u32>
    requires number { slice_get repo.now.packages number ≡ Some «package».now }
    requires last { IsLastEssential repo.now number last }
    ensures { IsLastEssential repo.now (number + 1) result }
{
    if package.essential {
        Some(number)
    } else {
        last
    }
}
