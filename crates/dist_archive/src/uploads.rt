//! Uploads: which are refused, and what takes the place of a cluster's packages.
ghost use Rattle.std.specs.Prelude.{◌≡◌, ◌≢◌, ◌↔◌, ◌+◌, ◌++◌, ◌<◌, All, IfErr, IfOk, IfSome, IsTrue, MatchOption, MatchResult, OnErr, OnOk, length};
ghost use Rattle.dist_repo.specs.declared.package.Package.{Package};
ghost use Rattle.dist_future.specs.Future.{IsAboveCluster, IsFuture};
ghost use Rattle.dist_archive.specs.AnswersPrivate.{IsNeverRefused, IsOnlyRefusal};
ghost use Rattle.dist_archive.specs.MembersPrivate.{AreNumbersOf, IsChange, IsNamedBehind};
ghost use Rattle.dist_archive.specs.Refusals.{IsFirstFault, IsOfOtherArchitecture, IsUploadFault, RefusesUpload};
ghost use Rattle.dist_archive.specs.SlotsPrivate.{AreReplacements, Replaces};
ghost use Rattle.dist_archive.specs.Steps.{IsAboveAll, IsClusterName, IsOfCluster, IsUploaded, Uploads};
ghost use Rattle.dist_archive.specs.UploadsPrivate.{IsAboveHeld, IsChecked, IsMemberFault, IsMemberNamed, IsMemberNew};

use crate::archive::Archive;
use crate::carried::is_new_of;
use crate::entry_places::EntryPlaces;
use crate::finding::number_named;
use crate::slots::Slot;
use crate::step::StepError;
use dist_repo::{Package, Repository};
use dist_space::Space;
use dist_version::Version;
use std::alloc::{AllocError, Global};

/// Whether a block, or a later archive, has an architecture that is not the repository's.
pub fn has_other_architecture(repo: &Repository, block: &Repository) -> bool
    ensures { IsTrue result ↔ IsOfOtherArchitecture repo.now block.now }
{
    match (block.architecture(), repo.architecture()) {
        (None, _) => false,
        (Some(_), None) => true,
        (Some(name), Some(own)) => name != own,
    }
}

/// The number of the package of a cluster that has a name.
fn member_named(space: &Space, cluster: u32, name: &[u8]) -> Option<u32>
    requires { cluster < length space.now.clusters.members }
    ensures member { (c : Package) → IsOfCluster space.now cluster c → MatchOption result (¬ IsClusterName space.now.repository c name.now)
        (λ number. IsMemberNamed space.now.repository c name.now number) }
    ensures within { IfSome result (λ number. number < length space.now.repository.packages) }
{
    space.keeps_invariant();
    let number = number_named(space.repo(), name)?;
    if space.clusters().cluster_of(number) != cluster {
        return None;
    }
    Some(number)
}

/// What is wrong with an uploaded package, beside the package of the repository that has its name.
fn check_member(
    version: &Version,
    number: u32,
    member: &Package,
    uploaded: &Package,
    places: &[u32],
) -> Result<(), StepError>
    ensures { MatchResult result (λ _. IsMemberNew version.now member.now uploaded.now) (IsMemberFault version.now number member.now uploaded.now) }
{
    if !uploaded.version.compare(version).is_eq() {
        return Err(StepError::NotAtVersion(number));
    }
    if !is_new_of(member, uploaded, places) {
        return Err(StepError::WrongProvides(number));
    }
    Ok(())
}

/// What is wrong with a package of an upload.
fn check_package(
    space: &Space,
    places: &EntryPlaces,
    cluster: u32,
    version: &Version,
    number: u32,
    uploaded: &Package,
) -> Result<(), StepError>
    requires { cluster < length space.now.clusters.members }
    ensures { (c : Package) → IsOfCluster space.now cluster c → MatchResult result (λ _. IsUploaded space.now.repository c version.now uploaded.now)
        (λ error. IsUploadFault space.now.repository c version.now number uploaded.now error) }
{
    match member_named(space, cluster, uploaded.name.bytes()) {
        Some(member) => check_member(
            version,
            number,
            space.package(member),
            uploaded,
            places.of(member),
        ),
        None => Err(StepError::NotMember(number)),
    }
}

/// What is wrong with the first bad package of an upload.
fn check_packages(
    space: &Space,
    places: &EntryPlaces,
    cluster: u32,
    version: &Version,
    block: &Repository,
) -> Result<(), StepError>
    requires { cluster < length space.now.clusters.members }
    ensures { (c : Package) → IsOfCluster space.now cluster c → MatchResult result (λ _. All (IsUploaded space.now.repository c version.now) block.now.packages)
        (λ error. IsFirstFault space.now.repository c version.now block.now.packages error) }
{
    for number in 0..block.len() {
        check_package(
            space,
            places,
            cluster,
            version,
            number,
            block.package(number),
        )?;
    }
    Ok(())
}

/// Whether a version is above the top of a cluster.
pub(crate) fn is_above_top(space: &Space, cluster: u32, version: &Version) -> bool
    requires { cluster < length space.now.clusters.members }
    ensures { (c : Package) → IsOfCluster space.now cluster c → IsTrue result ↔ IsAboveCluster space.now.repository c version.now }
{
    space.keeps_invariant();
    version.keeps_invariant();
    space.clusters().top(cluster).compare(version).is_lt()
}

/// What takes the place of a package of the cluster.
fn replacement(alloc: Global, block: &Repository, member: &Package) -> Result<Slot, AllocError>
    ensures { IfOk result (Replaces block.now.packages member.now) }
{
    match number_named(block, member.name.bytes()) {
        Some(number) => Ok(Slot::New(Box::new(alloc, block.package(number).try_clone()?)?)),
        None => Ok(Slot::Gone),
    }
}

/// What takes the place of some packages.
fn replacements(
    alloc: Global,
    space: &Space,
    members: &[u32],
    block: &Repository,
) -> Result<Vec<Slot>, AllocError>
    requires { All (λ member. member < length space.now.repository.packages) members.now }
    ensures { IfOk result (λ slots. AreReplacements space.now.repository.packages block.now.packages members.now slots.items) }
{
    let mut slots = Vec::new(alloc);
    for member in members {
        slots.push(replacement(alloc, block, space.package(*member))?)?;
    }
    Ok(slots)
}

/// Adds the number of the package of a repository that has a name, if one has.
fn push_named(repo: &Repository, name: &[u8], numbers: &mut Vec<u32>) -> Result<(), AllocError>
    ensures { OnOk result (IsNamedBehind repo.now.packages name.now numbers.old.items numbers.new.items) }
{
    match number_named(repo, name) {
        Some(number) => Ok(numbers.push(number)?),
        None => Ok(()),
    }
}

/// The numbers of the packages of a repository whose names a block has.
fn numbers_of(alloc: Global, repo: &Repository, block: &Repository) -> Result<Vec<u32>, AllocError>
    ensures { IfOk result (λ numbers. AreNumbersOf repo.now.packages block.now.packages numbers.items) }
{
    let mut numbers = Vec::new(alloc);
    for number in 0..block.len() {
        push_named(repo, block.package(number).name.bytes(), &mut numbers)?;
    }
    Ok(numbers)
}

/// What an upload changes: the members that it brings, those that it brings or takes away, and the slots of these.
struct Change {
    brought: Vec<u32>,
    touched: Vec<u32>,
    slots: Vec<Slot>,
}

/// One list behind another one.
fn joined(alloc: Global, first: &[u32], second: &[u32]) -> Result<Vec<u32>, AllocError>
    ensures { IfOk result (λ both. both.items ≡ first.now ++ second.now) }
{
    let mut both = Vec::from_slice(alloc, first)?;
    both.extend_from_slice(second)?;
    Ok(both)
}

/// What an upload changes where these members of the cluster may be held.
fn change_of(
    alloc: Global,
    space: &Space,
    former: &[u32],
    block: &Repository,
) -> Result<Change, AllocError>
    requires { All (λ member. member < length space.now.repository.packages) former.now }
    ensures { IfOk result (IsChange space.now.repository.packages block.now.packages former.now) }
{
    let brought = numbers_of(alloc, space.repo(), block)?;
    let touched = joined(alloc, former, &brought)?;
    let slots = replacements(alloc, space, &touched, block)?;
    Ok(Change {
        brought,
        touched,
        slots,
    })
}

impl Archive {
    /// Whether a version is above what is held of the name of a package of the repository, if something is.
    fn is_above_held(&self, member: u32, version: &Version) -> bool
        requires { member < length self.now.space.repository.packages }
        ensures { IsTrue result ↔ IsAboveHeld self.now member version.now }
    {
        match self.at(member) {
            Some(held) => held.version.compare(version).is_lt(),
            None => true,
        }
    }

    /// Whether a version is above all that is held of the names of some packages of the repository.
    fn is_above_each(&self, members: &[u32], version: &Version) -> bool
        requires { All (λ member. member < length self.now.space.repository.packages) members.now }
        ensures { IsTrue result ↔ All (λ member. IsAboveHeld self.now member version.now) members.now }
    {
        for member in members {
            if !self.is_above_held(*member, version) {
                return false;
            }
        }
        true
    }

    /// Whether a version is above the top of a cluster and above all that is held of its names.
    fn is_above_all(&self, cluster: u32, version: &Version) -> bool
        requires { cluster < length self.now.space.clusters.members }
        ensures { (c : Package) → IsOfCluster self.now.space cluster c
            → IsTrue result ↔ IsAboveAll self.now.space.repository self.now.packages c version.now }
    {
        let space = self.space();
        space.keeps_invariant();
        is_above_top(space, cluster, version)
            && self.is_above_each(
                self.held.of(cluster, space.clusters().members(cluster)),
                version,
            )
    }

    /// What is wrong with an upload.
    fn check_upload(
        &self,
        cluster: u32,
        version: &Version,
        block: &Repository,
    ) -> Result<(), StepError>
        requires { cluster < length self.now.space.clusters.members }
        ensures { (c : Package) → IsOfCluster self.now.space cluster c
            → MatchResult result (λ _. IsChecked self.now.space.repository self.now.packages c version.now block.now)
            (λ error. RefusesUpload self.now.space.repository self.now.packages c version.now block.now error) }
    {
        let space = self.space();
        if has_other_architecture(space.repo(), block) {
            return Err(StepError::OtherArchitecture);
        }
        if !self.is_above_all(cluster, version) {
            return Err(StepError::NotAbove);
        }
        check_packages(space, &self.places, cluster, version, block)
    }

    /// Makes an upload.
    pub(crate) fn upload(
        &mut self,
        cluster: u32,
        version: &Version,
        block: &Repository,
    ) -> Result<(), StepError>
        requires in_range { cluster < length self.old.space.clusters.members }
        requires few { length self.old.packages + length block.now.packages < 4294967295 }
        ensures space { self.new.space ≡ self.old.space }
        ensures made { OnOk result ((c : Package) × IsOfCluster self.old.space cluster c
            × Uploads self.old.space.repository c version.now block.now.packages self.old.packages self.new.packages) }
        ensures err { OnErr result (self.new ≡ self.old) }
        ensures refused { IfErr result (λ error. error ≢ StepError.NoMemory
            → IsOnlyRefusal (λ other. (c : Package) × IsOfCluster self.old.space cluster c
            × RefusesUpload self.old.space.repository self.old.packages c version.now block.now other) error) }
        ensures accepted { OnOk result (IsNeverRefused (λ other. (c : Package) × IsOfCluster self.old.space cluster c
            × RefusesUpload self.old.space.repository self.old.packages c version.now block.now other)) }
        ensures future { IsFuture self.new.space.repository self.new.packages }
    {
        self.space.keeps_invariant();
        block.keeps_invariant();
        self.check_upload(cluster, version, block)?;
        let former = self
            .held
            .of(cluster, self.space.clusters().members(cluster));
        let Change {
            brought,
            touched,
            slots,
        } = change_of(self.alloc, &self.space, former, block)?;
        self.slots.put_all(&touched, slots);
        self.held.put(cluster, brought);
        Ok(())
    }
}
