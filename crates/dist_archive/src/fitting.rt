//! Whether the packages of a later archive fit, one after another.
ghost use Rattle.std.specs.Bool.{OnFalse, OnTrue};
ghost use Rattle.std.specs.Prelude.{◌≡◌, ◌↔◌, ◌+◌, ◌<◌, IfOk, IsTrue, MatchResult, length, replicate};
ghost use Rattle.dist_repo.specs.PackageList.{IsPackageAnd};
ghost use Rattle.dist_classes.specs.NewVersion.{IsOfNewName};
ghost use Rattle.dist_future.specs.Future.{IsProvided, IsTaken};
ghost use Rattle.dist_archive.specs.FoundPrivate.{AreChecked, AreLevel, AreNamedAlike, IsNext, IsReason, Takes};
ghost use Rattle.dist_archive.specs.Reach.{IsFirstMisfit, IsLater};
ghost use Rattle.dist_archive.specs.declared.fitting.Found.TheVariants as found;

use crate::bringing::is_provided;
use crate::carried::is_new_of;
use crate::finding::number_named;
use crate::plan::ReachError;
use crate::uploads::is_above_top;
use dist_repo::{Package, Repository, same};
use dist_space::Space;
use std::alloc::{AllocError, Global};

/// What is found of a cluster among the packages of a later archive.
#[derive(Clone, Copy)]
pub(crate) enum Found {
    /// No package of its names.
    Nothing,
    /// One that is kept.
    Kept,
    /// The number of one that is later.
    New(u32),
}

/// Whether a package of a name that is none of the repository's is one that comes as a new name.
fn is_fresh(repo: &Repository, fresh: &Package) -> bool
    requires { ¬ IsTaken repo.now fresh.now.name }
    ensures { IsTrue result ↔ (IsOfNewName fresh.now.name fresh.now × (¬ IsProvided repo.now fresh.now.name)) }
{
    fresh.version.keeps_invariant();
    if is_provided(repo, fresh.name.bytes()) {
        return false;
    }
    if fresh.provides.len() > 0 {
        return false;
    }
    true
}

/// Whether a package is later than the package of the repository that has its name.
fn is_later(space: &Space, number: u32, fresh: &Package) -> bool
    requires { IsPackageAnd space.now.repository.packages number (λ q. q.name ≡ fresh.now.name) }
    ensures { IsTrue result ↔ IsLater space.now.repository fresh.now }
{
    space.keeps_invariant();
    if !is_new_of(space.package(number), fresh, &[]) {
        return false;
    }
    is_above_top(space, space.cluster_of(number), &fresh.version)
}

/// What is found with the first package of a cluster, if it fits.
fn first_found(space: &Space, later: &Repository, place: u32, number: u32) -> Option<Found>
    requires { IsNext space.now later.now.packages place number found.Nothing }
    ensures { Takes space.now later.now.packages place number result }
{
    space.keeps_invariant();
    let fresh = later.package(place);
    if same(fresh, space.package(number)) {
        return Some(Found::Kept);
    }
    if is_later(space, number, fresh) {
        return Some(Found::New(place));
    }
    None
}

/// What is found with a package of a cluster of which one is kept, if it fits.
fn more_kept(space: &Space, later: &Repository, place: u32, number: u32) -> Option<Found>
    requires { IsNext space.now later.now.packages place number found.Kept }
    ensures { Takes space.now later.now.packages place number result }
{
    space.keeps_invariant();
    if !same(later.package(place), space.package(number)) {
        return None;
    }
    Some(Found::Kept)
}

/// Whether two packages of the later archive have equal versions.
fn are_level(later: &Repository, place: u32, first: u32) -> bool
    requires within { place < length later.now.packages }
    requires first_within { first < length later.now.packages }
    ensures { AreLevel later.now.packages place first result }
{
    later
        .package(place)
        .version
        .compare(&later.package(first).version)
        .is_eq()
}

/// What is found with a package of a cluster of which one is later, if it fits.
fn more_later(
    space: &Space,
    later: &Repository,
    place: u32,
    number: u32,
    first: u32,
) -> Option<Found>
    requires { IsNext space.now later.now.packages place number (found.New first) }
    ensures { Takes space.now later.now.packages place number result }
{
    space.keeps_invariant();
    if !is_later(space, number, later.package(place)) {
        return None;
    }
    if !are_level(later, place, first) {
        return None;
    }
    Some(Found::New(first))
}

/// What is found of a cluster with one more package of it, if that one fits.
fn next_found(
    space: &Space,
    later: &Repository,
    place: u32,
    number: u32,
    found: Found,
) -> Option<Found>
    requires { IsNext space.now later.now.packages place number found }
    ensures { Takes space.now later.now.packages place number result }
{
    match found {
        Found::Nothing => first_found(space, later, place, number),
        Found::Kept => more_kept(space, later, place, number),
        Found::New(first) => more_later(space, later, place, number, first),
    }
}

/// Takes a package under the name of the package of a number of the repository, and says whether it fits.
fn take_own(
    space: &Space,
    later: &Repository,
    place: u32,
    number: u32,
    founds: &mut Vec<Found>,
) -> bool
    requires named { AreNamedAlike space.now later.now.packages place number }
    requires checked { AreChecked space.now later.now.packages place founds.old.items }
    ensures fits { OnTrue result (AreChecked space.now later.now.packages (place + 1) founds.new.items) }
    ensures misfit { OnFalse result (IsFirstMisfit space.now.repository later.now.packages place) }
{
    space.keeps_invariant();
    let cluster = space.cluster_of(number) as usize;
    match next_found(space, later, place, number, founds[cluster]) {
        Some(next) => {
            founds[cluster] = next;
            true
        }
        None => false,
    }
}

/// Takes the next package of the later archive, and says whether it fits.
fn take_package(space: &Space, later: &Repository, place: u32, founds: &mut Vec<Found>) -> bool
    requires within { place < length later.now.packages }
    requires checked { AreChecked space.now later.now.packages place founds.old.items }
    ensures fits { OnTrue result (AreChecked space.now later.now.packages (place + 1) founds.new.items) }
    ensures misfit { OnFalse result (IsFirstMisfit space.now.repository later.now.packages place) }
{
    space.keeps_invariant();
    let repo = space.repo();
    let candidate = later.package(place);
    match number_named(repo, candidate.name.bytes()) {
        Some(number) => take_own(space, later, place, number, founds),
        None => is_fresh(repo, candidate),
    }
}

/// Nothing is found of so many clusters.
fn nothing_found(alloc: Global, clusters: u32) -> Result<Vec<Found>, AllocError>
    ensures { IfOk result (λ founds. founds.items ≡ replicate clusters found.Nothing) }
{
    let mut founds = Vec::new(alloc);
    for _cluster in 0..clusters {
        founds.push(Found::Nothing)?;
    }
    Ok(founds)
}

/// What is found of all clusters in a later archive, or its first misfit.
pub(crate) fn check(
    alloc: Global,
    space: &Space,
    later: &Repository,
) -> Result<Vec<Found>, ReachError>
    ensures { MatchResult result (λ founds. AreChecked space.now later.now.packages (length later.now.packages) founds.items)
        (IsReason space.now.repository later.now.packages) }
{
    space.keeps_invariant();
    let mut founds = nothing_found(alloc, space.clusters().len())?;
    for place in 0..later.len() {
        if !take_package(space, later, place, &mut founds) {
            return Err(ReachError::NotAFuture(place));
        }
    }
    Ok(founds)
}
