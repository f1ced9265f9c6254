//! Whether an assignment stands for a future and a healthy installation in it: the kinds of fault in their order.
ghost use Rattle.std.specs.Prelude.{◌≡◌, ◌≤◌, ◌<◌, ◌↔◌, IsTrue, Some, length, slice_get};
ghost use Rattle.dist_base.specs.Least.{IsLeastIfAny, IsLeastPairIfAny, IsLesserPair};
ghost use Rattle.dist_repo.specs.Size.{IsWithinSize};
ghost use Rattle.dist_future.specs.FutureHealth.{AreConflicting, IsFutureHealth, IsMissing, IsOneEach, IsUnmetAt, SomeHolds};
ghost use Rattle.dist_future.specs.MatchingPrivate.{IsItemAt, IsInstalled, IsRejectedBy, IsRejectedFrom, IsUnmetItem};
ghost use Rattle.dist_space.specs.Space.{IsMeaning, IsMetBy};
ghost use Rattle.dist_future.specs.SpaceLaws.{holds_under};

use crate::found::{found, lesser};
use crate::health_kind::FutureHealth;
use crate::no_future::no_future;
use dist_clause::Assignment;
use dist_relation::Alternatives;
use dist_repo::Package;
use dist_space::{Meaning, Space};

/// Whether something that holds meets the item at a place of a package, by the alternatives that are asked.
fn is_met(
    space: &Space,
    members: &Assignment,
    number: u32,
    item: usize,
    alternatives: &Alternatives,
) -> bool
    requires one_each { IsOneEach space.now members.now }
    requires item { IsItemAt space.now number item alternatives.now }
    ensures some { 0 < length alternatives.now }
    ensures met { IsTrue result ↔ SomeHolds space.now members.now (IsMetBy space.now alternatives.now) }
{
    let asked = space.repo().asked_alternatives(number, item);
    for place in 0..alternatives.len() {
        let atom = alternatives.get(place);
        if asked.has(place) && found(space, members, atom, None).is_some() {
            return true;
        }
    }
    false
}

/// The least place of an item of a package that nothing meets.
fn unmet_item(space: &Space, members: &Assignment, number: u32, package: &Package) -> Option<u32>
    requires one_each { IsOneEach space.now members.now }
    requires within_size { IsWithinSize space.now.repository }
    requires number { slice_get space.now.repository.packages number ≡ Some «package».now }
    ensures { IsLeastIfAny (IsUnmetItem space.now members.now «package».now.depends) result }
{
    for place in 0..package.depends.len() {
        if !is_met(space, members, number, place, package.depends.get(place)) {
            // An item has an atom, so the place is less than the number of atoms.
            return Some(place as u32);
        }
    }
    None
}

/// The least place of an unmet item of the package that a variable means as it is today.
fn unmet_row(space: &Space, members: &Assignment, variable: u32) -> Option<u32>
    requires one_each { IsOneEach space.now members.now }
    requires from_one { 1 ≤ variable }
    requires in_range { variable ≤ length space.now.meanings }
    ensures { IsLeastIfAny (IsUnmetAt space.now members.now variable) result }
{
    if !members.value(variable) {
        return None;
    }
    match space.meaning(variable) {
        Meaning::Present(number) => {
            let package = space.repo().package(number);
            unmet_item(space, members, number, package)
        }
        _ => None,
    }
}

/// The least variable of a package with an unmet item, and the place of the first one.
fn unmet(space: &Space, members: &Assignment) -> Option<(u32, u32)>
    requires { IsOneEach space.now members.now }
    ensures { IsLeastPairIfAny (IsUnmetAt space.now members.now) result }
{
    for variable in 1..space.variables() + 1 {
        if let Some(place) = unmet_row(space, members, variable) {
            return Some((variable, place));
        }
    }
    None
}

/// The least variable of others that holds and that a conflict atom of a package matches, by the atoms that are asked.
fn rejected(space: &Space, members: &Assignment, number: u32, package: &Package) -> Option<u32>
    requires one_each { IsOneEach space.now members.now }
    requires number { slice_get space.now.repository.packages number ≡ Some «package».now }
    ensures { IsLeastIfAny (IsRejectedBy space.now members.now number «package».now.conflicts) result }
{
    let asked = space.repo().asked_conflicts(number);
    let mut least = None;
    for place in 0..package.conflicts.len() {
        let atom = package.conflicts.get(place);
        if asked.has(place) {
            least = lesser(least, found(space, members, atom, Some(number)));
        }
    }
    least
}

/// The least variable that the package of a variable rejects, where that is a package as it is today.
fn rejected_row(space: &Space, members: &Assignment, variable: u32) -> Option<u32>
    requires one_each { IsOneEach space.now members.now }
    requires from_one { 1 ≤ variable }
    requires in_range { variable ≤ length space.now.meanings }
    ensures { IsLeastIfAny (IsRejectedFrom space.now members.now variable) result }
{
    if !members.value(variable) {
        return None;
    }
    match space.meaning(variable) {
        Meaning::Present(number) => rejected(space, members, number, space.package(number)),
        _ => None,
    }
}

/// The lesser of two pairs, of which one may be missing.
fn lesser_pair(least: Option<(u32, u32)>, first: u32, second: u32) -> (u32, u32)
    ensures { IsLesserPair least first second result }
{
    match least {
        Some((number, place)) => {
            if number < first || number == first && place < second {
                (number, place)
            } else {
                (first, second)
            }
        }
        None => (first, second),
    }
}

/// The least two variables in conflict.
fn conflict(space: &Space, members: &Assignment) -> Option<(u32, u32)>
    requires { IsOneEach space.now members.now }
    ensures { IsLeastPairIfAny (AreConflicting space.now members.now) result }
{
    let mut least = None;
    for variable in 1..space.variables() + 1 {
        if let Some(other) = rejected_row(space, members, variable) {
            if variable < other {
                least = Some(lesser_pair(least, variable, other));
            } else {
                least = Some(lesser_pair(least, other, variable));
            }
        }
    }
    least
}

/// Whether a meaning holds.
fn holds(space: &Space, members: &Assignment, meaning: Meaning) -> bool
    requires one_each { IsOneEach space.now members.now }
    requires is_meaning { IsMeaning space.now meaning }
    ensures { result ≡ holds_under space.now members.now meaning }
{
    members.value(space.variable(&meaning))
}

/// Whether a package is installed as it is today, or a new version of it.
fn is_borne(space: &Space, members: &Assignment, number: u32) -> bool
    requires one_each { IsOneEach space.now members.now }
    requires number { number < length space.now.repository.packages }
    ensures { IsTrue result ↔ SomeHolds space.now members.now (IsInstalled number) }
{
    if holds(space, members, Meaning::Present(number)) {
        return true;
    }
    for class in 0..space.class_count(space.cluster_of(number)) {
        if holds(space, members, Meaning::New(number, class)) {
            return true;
        }
    }
    false
}

/// The least essential package whose name nothing that is installed has.
fn missing(space: &Space, members: &Assignment) -> Option<u32>
    requires { IsOneEach space.now members.now }
    ensures { IsLeastIfAny (IsMissing space.now members.now) result }
{
    if !space.essential() {
        return None;
    }
    let repo = space.repo();
    for number in 0..repo.len() {
        if repo.package(number).essential && !is_borne(space, members, number) {
            return Some(number);
        }
    }
    None
}

/// Whether an assignment stands for a future and a healthy installation in it, or else the first kind of fault that there is,
/// with its least place.
pub fn health_in(space: &Space, members: &Assignment) -> FutureHealth
    requires { IsOneEach space.now members.now }
    ensures { IsFutureHealth space.now members.now result }
{
    if let Some((first, second)) = no_future(space, members) {
        return FutureHealth::NotAFuture(first, second);
    }
    if let Some((variable, place)) = unmet(space, members) {
        return FutureHealth::Unmet(variable, place);
    }
    if let Some((first, second)) = conflict(space, members) {
        return FutureHealth::Conflict(first, second);
    }
    if let Some(number) = missing(space, members) {
        return FutureHealth::EssentialMissing(number);
    }
    FutureHealth::Healthy
}
