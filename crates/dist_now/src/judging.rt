//! Whether a set of packages is a healthy installation: the kinds of fault in their order.
ghost use Rattle.std.specs.Prelude.{◌≡◌, ◌<◌, ◌↔◌, ℕ, IsTrue, Some, slice_get};
ghost use Rattle.dist_base.specs.Least.{IsLeastIfAny};
ghost use Rattle.dist_repo.specs.Size.{IsWithinSize};
ghost use Rattle.dist_now.specs.Fit.{IsOneEach};
ghost use Rattle.dist_now.specs.GatheringPrivate.{IsLastEssential};
ghost use Rattle.dist_now.specs.Health.{IsHealth, IsMissing};

use crate::conflicts::conflict;
use crate::essentials::{has_essential_before, last_essential};
use crate::faults::{two_versions, unmet};
use crate::kinds::Health;
use crate::members::is_named;
use dist_clause::Assignment;
use dist_repo::{Package, Repository};

/// Whether a package is essential and no member has its name, where that is not so of those before it.
fn is_missing(
    repo: &Repository,
    members: &Assignment,
    last: Option<u32>,
    number: u32,
    package: &Package,
) -> bool
    requires one_each { IsOneEach repo.now members.now }
    requires number { slice_get repo.now.packages number ≡ Some «package».now }
    requires last { IsLastEssential repo.now number last }
    requires earlier { (k : ℕ) → k < number → ¬ IsMissing repo.now members.now k }
    ensures { IsTrue result ↔ IsMissing repo.now members.now number }
{
    if !package.essential || has_essential_before(repo, last, number, package) {
        return false;
    }
    !is_named(repo, members, &package.name)
}

/// The least essential package whose name no member has.
fn missing(repo: &Repository, members: &Assignment) -> Option<u32>
    requires { IsOneEach repo.now members.now }
    ensures { IsLeastIfAny (IsMissing repo.now members.now) result }
{
    let mut last = None;
    for number in 0..repo.len() {
        let package = repo.package(number);
        if is_missing(repo, members, last, number, package) {
            return Some(number);
        }
        last = last_essential(repo, last, number, package);
    }
    None
}

/// Whether the members are a healthy installation, or else the first kind of fault that there is, with its least place.
/// Where `essential` is false, no name is required.
pub fn health(repo: &Repository, essential: bool, members: &Assignment) -> Health
    requires one_each { IsOneEach repo.now members.now }
    requires within_size { IsWithinSize repo.now }
    ensures { IsHealth repo.now essential members.now result }
{
    if let Some((first, second)) = two_versions(repo, members) {
        return Health::TwoVersions(first, second);
    }
    if let Some((number, place)) = unmet(repo, members) {
        return Health::Unmet(number, place);
    }
    if let Some((first, second)) = conflict(repo, members) {
        return Health::Conflict(first, second);
    }
    if essential {
        if let Some(number) = missing(repo, members) {
            return Health::EssentialMissing(number);
        }
    }
    Health::Healthy
}
