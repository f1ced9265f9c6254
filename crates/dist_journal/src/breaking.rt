//! Which packages moved clusters break.
ghost use Rattle.std.specs.Prelude.{◌≡◌, ◌↔◌, ◌<◌, ℕ, List, Contains, IfOk, IsTrue, OnOk, Some, length};
ghost use Rattle.dist_repo.specs.PackageList.{IsPackageAnd};
ghost use Rattle.dist_cert.specs.declared.records.Claim.TheVariants.{Challenged};
ghost use Rattle.dist_journal.specs.Broken.{AreBroken, IsMovedInto};
ghost use Rattle.dist_journal.specs.BreakingPrivate.{AreMoved, IsMovedAt, IsNoted, IsNotedPair, IsNotedUpTo};
ghost use Rattle.dist_journal.specs.PairsPrivate.{Adds};

use crate::broken_list::{BrokenList, listed, note};
use dist_archive::Archive;
use dist_cert::{Claim, Claims, Pairs};
use dist_classes::class_of;
use dist_repo::same;
use std::alloc::{AllocError, Global};
use std::collections::BTreeSet;

/// The class of the version to which a cluster has moved, if it has.
fn moved_class(archive: &Archive, cluster: u32) -> Option<u32>
    requires { cluster < length archive.now.space.clusters.members }
    ensures { (class : ℕ) → (result ≡ Some class) ↔ IsMovedInto archive.now.space archive.now.packages cluster class }
{
    match archive.moved(cluster) {
        Some(version) => class_of(archive.space().classes(cluster), version),
        None => None,
    }
}

/// For each cluster the class of the version to which it has moved, if it has.
fn moved_classes(alloc: Global, archive: &Archive) -> Result<Vec<Option<u32>>, AllocError>
    ensures { IfOk result (λ moved. AreMoved archive.now moved.items) }
{
    let mut moved = Vec::new(alloc);
    for cluster in 0..archive.space().clusters().len() {
        moved.push(moved_class(archive, cluster))?;
    }
    Ok(moved)
}

/// Whether a cluster has moved to a version of a class.
fn has_moved(moved: &[Option<u32>], pair: (u32, u32)) -> bool
    ensures { IsTrue result ↔ IsMovedAt moved.now pair }
{
    match moved.get(pair.0 as usize) {
        Some(class) => *class == Some(pair.1),
        None => false,
    }
}

/// Whether the archive holds a package of the repository itself.
fn is_held(archive: &Archive, number: u32) -> bool
    requires { number < length archive.now.space.repository.packages }
    ensures { IsTrue result ↔ IsPackageAnd archive.now.space.repository.packages number (Contains archive.now.packages) }
{
    let own = archive.space().package(number);
    match archive.held(own.name.bytes()) {
        Some(held) => same(held, own),
        None => false,
    }
}

/// Notes the cluster of a pair with a package, if it has moved to a version of the class.
fn note_pair(
    found: &mut BTreeSet<(u32, u32)>,
    moved: &[Option<u32>],
    pair: (u32, u32),
    number: u32,
) -> Result<(), AllocError>
    ensures { OnOk result (Adds found.old.keys found.new.keys (IsNotedPair moved.now number pair)) }
{
    if has_moved(moved, pair) {
        note(found, pair.0, number)?;
    }
    Ok(())
}

/// Notes the clusters of some pairs.
fn note_pairs(
    found: &mut BTreeSet<(u32, u32)>,
    moved: &[Option<u32>],
    pairs: &Pairs,
    number: u32,
) -> Result<(), AllocError>
    ensures { OnOk result (Adds found.old.keys found.new.keys (IsNotedUpTo moved.now number pairs.now (length pairs.now))) }
{
    for place in 0..pairs.len() {
        note_pair(found, moved, pairs.get(place), number)?;
    }
    Ok(())
}

/// Notes the clusters that break a package, by the pairs that challenge it.
fn note_listed(
    found: &mut BTreeSet<(u32, u32)>,
    archive: &Archive,
    moved: &[Option<u32>],
    by: &Pairs,
    number: u32,
) -> Result<(), AllocError>
    requires { number < length archive.now.space.repository.packages }
    ensures { (undecided : List (ℕ × ℕ)) → OnOk result (Adds found.old.keys found.new.keys
        (IsNoted archive.now moved.now number (Challenged by.now undecided))) }
{
    if is_held(archive, number) {
        note_pairs(found, moved, by, number)?;
    }
    Ok(())
}

/// Notes the clusters that break a package, by the claim on it.
fn note_claim(
    found: &mut BTreeSet<(u32, u32)>,
    archive: &Archive,
    moved: &[Option<u32>],
    claim: &Claim,
    number: u32,
) -> Result<(), AllocError>
    requires { number < length archive.now.space.repository.packages }
    ensures { OnOk result (Adds found.old.keys found.new.keys (IsNoted archive.now moved.now number claim.now)) }
{
    match claim {
        Claim::Challenged(by, _) => note_listed(found, archive, moved, by, number),
        _ => Ok(()),
    }
}

/// The packages that moved clusters break: each package of the repository that is held, by a cluster that has moved to a version
/// of a class that challenges it by the claim on it.
pub fn broken(alloc: Global, archive: &Archive, claims: &Claims) -> Result<BrokenList, AllocError>
    requires { length claims.now ≡ length archive.now.space.repository.packages }
    ensures { IfOk result (AreBroken archive.now.space archive.now.packages claims.now) }
{
    let moved = moved_classes(alloc, archive)?;
    let mut found = BTreeSet::new(alloc);
    for number in 0..archive.space().package_count() {
        note_claim(
            &mut found,
            archive,
            &moved,
            claims.get(number as usize),
            number,
        )?;
    }
    listed(alloc, &found)
}
