//! The least fault of each kind: rows of pairs, each gone through from its least.
ghost use Rattle.std.specs.Prelude.{◌≡◌, ◌<◌, Some, length, slice_get};
ghost use Rattle.dist_base.specs.Least.{IsLeastIfAny, IsLeastPairIfAny};
ghost use Rattle.dist_repo.specs.Size.{IsWithinSize};
ghost use Rattle.dist_now.specs.Fit.{IsOneEach};
ghost use Rattle.dist_now.specs.Health.{AreTwoVersions, IsUnmetAt};
ghost use Rattle.dist_now.specs.RowsPrivate.{IsLater, IsUnmetItem};

use crate::members::{is_member, is_met};
use dist_clause::Assignment;
use dist_repo::{Package, Repository};

/// The least member behind one, of the same name.
fn later_version(
    repo: &Repository,
    members: &Assignment,
    first: u32,
    package: &Package,
) -> Option<u32>
    requires one_each { IsOneEach repo.now members.now }
    requires first { slice_get repo.now.packages first ≡ Some «package».now }
    ensures { IsLeastIfAny (IsLater repo.now members.now first (λ q. «package».now.name ≡ q.name)) result }
{
    // Packages are in the order of their names, so those of one name stand together.
    let end = repo.len();
    for second in first + 1..end {
        if repo.package(second).name != package.name {
            return None;
        }
        if is_member(repo, members, second) {
            return Some(second);
        }
    }
    None
}

/// The least place of an item of a package that no member meets.
fn unmet_item(
    repo: &Repository,
    members: &Assignment,
    number: u32,
    package: &Package,
) -> Option<u32>
    requires one_each { IsOneEach repo.now members.now }
    requires within_size { IsWithinSize repo.now }
    requires number { slice_get repo.now.packages number ≡ Some «package».now }
    ensures { IsLeastIfAny (IsUnmetItem repo.now members.now «package».now.depends) result }
{
    for place in 0..package.depends.len() {
        let asked = repo.asked_alternatives(number, place);
        if !is_met(repo, members, package.depends.get(place), asked) {
            // An item has an atom, so the place is less than the number of atoms.
            return Some(place as u32);
        }
    }
    None
}

/// The least member behind a member that has its name.
fn version_row(repo: &Repository, members: &Assignment, first: u32) -> Option<u32>
    requires one_each { IsOneEach repo.now members.now }
    requires first { first < length repo.now.packages }
    ensures { IsLeastIfAny (AreTwoVersions repo.now members.now first) result }
{
    if !is_member(repo, members, first) {
        return None;
    }
    later_version(repo, members, first, repo.package(first))
}

/// The least place of an unmet item of a member.
fn unmet_row(repo: &Repository, members: &Assignment, number: u32) -> Option<u32>
    requires one_each { IsOneEach repo.now members.now }
    requires within_size { IsWithinSize repo.now }
    requires number { number < length repo.now.packages }
    ensures { IsLeastIfAny (IsUnmetAt repo.now members.now number) result }
{
    if !is_member(repo, members, number) {
        return None;
    }
    unmet_item(repo, members, number, repo.package(number))
}

/// The least two members of one name.
pub(crate) fn two_versions(repo: &Repository, members: &Assignment) -> Option<(u32, u32)>
    requires { IsOneEach repo.now members.now }
    ensures { IsLeastPairIfAny (AreTwoVersions repo.now members.now) result }
{
    for first in 0..repo.len() {
        if let Some(second) = version_row(repo, members, first) {
            return Some((first, second));
        }
    }
    None
}

/// The least member with an unmet item, and the place of the first one.
pub(crate) fn unmet(repo: &Repository, members: &Assignment) -> Option<(u32, u32)>
    requires one_each { IsOneEach repo.now members.now }
    requires within_size { IsWithinSize repo.now }
    ensures { IsLeastPairIfAny (IsUnmetAt repo.now members.now) result }
{
    for number in 0..repo.len() {
        if let Some(place) = unmet_row(repo, members, number) {
            return Some((number, place));
        }
    }
    None
}
