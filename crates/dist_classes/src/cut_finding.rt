//! The classes of a cluster and of a new name: their cuts are the versions that atoms have in bounds on their names.
ghost use Rattle.std.specs.Prelude.{◌≡◌, ◌<◌, ◌↔◌, [], All, Contains, IfOk, IsTrue, OnOk, length, slice_index_or};
ghost use Rattle.dist_version.specs.Order.{IsBelow};
ghost use Rattle.dist_classes.specs.Answers.{AreClassesOf, AreClassesOfName, AreClustersOf};
ghost use Rattle.dist_classes.specs.Atoms.{IsBoundOn};
ghost use Rattle.dist_classes.specs.Cuts.{IsClusterCut, IsNameOfCluster};
ghost use Rattle.dist_classes.specs.NewVersion.{IsAt, IsMovedName, IsMoving};
ghost use Rattle.dist_classes.specs.Table.{Adds, AddsLeast};

use crate::bound_table::{Table, table_of};
use crate::class_list::{Classes, classes_above, classes_of_all};
use crate::keys::TextKey;
use dist_cluster::Clusters;
use dist_relation::{Name, Provide};
use dist_repo::{NameKey, Package, Repository};
use dist_version::Version;
use std::alloc::{AllocError, Global};
use std::collections::BTreeSet;
use std::marker::Model;

/// A repository with the versions in bounds of its atoms, name by name, which gives the classes of each cluster and of each
/// new name without another walk over its atoms.
#[derive(Drop)]
pub struct CutFinder<'a> {
    alloc: Global,
    repo: &'a Repository,
    table: Table<'a>,
}

impl<'a> Model for CutFinder<'a> {
    ghost use Rattle.dist_repo.specs.PackageList.{PackageList};
    ghost use Rattle.dist_classes.specs.Table.{IsTableOf};

    ghost Value = { PackageList };

    ghost view = { λ finder. finder.repo.now };

    ghost invariant = { λ finder. IsTableOf finder.repo.now finder.table };
}

/// Whether an entry of Provides has a version that is equal to another one.
fn is_at(entry: &Provide, version: &Version) -> bool
    ensures { IsTrue result ↔ IsAt entry.now version.now }
{
    match &entry.version {
        Some(own) => own.compare(version).is_eq(),
        None => false,
    }
}

/// Whether an entry goes with its package to a new version.
fn is_moving(repo: &Repository, package: &Package, entry: &Provide) -> bool
    ensures { IsTrue result ↔ IsMoving repo.now.architecture «package».now entry.now }
{
    repo.usable(&entry.qualifier) && is_at(entry, &package.version)
}

impl<'a> CutFinder<'a> {
    /// Goes through the atoms of a repository once.
    pub fn new(alloc: Global, repo: &'a Repository) -> Result<CutFinder<'a>, AllocError>
        ensures { IfOk result (λ finder. finder ≡ repo.now) }
    {
        let table = table_of(alloc, repo)?;
        Ok(CutFinder { alloc, repo, table })
    }

    /// Adds the versions in bounds on a name, each once.
    fn collect(&self, name: &NameKey, found: &mut Vec<TextKey<'a>>) -> Result<(), AllocError>
        ensures { OnOk result (AddsLeast found.old.items found.new.items (IsBoundOn self.now (λ other. other ≡ name.now))) }
    {
        self.table.collect(name, found)
    }

    /// Adds the versions in bounds on a name that are above another one, each once.
    fn collect_above(
        &self,
        name: &NameKey,
        top: &Version,
        found: &mut Vec<TextKey<'a>>,
    ) -> Result<(), AllocError>
        ensures { OnOk result (AddsLeast found.old.items found.new.items (λ v. IsBelow top.now v × IsBoundOn self.now (λ other. other ≡ name.now) v)) }
    {
        self.table.collect_above(name, top, found)
    }

    /// Adds the names that a new version of a package has at its own version.
    fn note_moved(
        &self,
        package: &'a Package,
        names: &mut BTreeSet<NameKey<'a>>,
    ) -> Result<(), AllocError>
        ensures { OnOk result (Adds names.old.keys names.new.keys (IsMovedName self.now.architecture «package».now)) }
    {
        names.insert(NameKey::new(&package.name))?;
        for place in 0..package.provides.len() {
            let entry = package.provides.get(place);
            if is_moving(self.repo, package, entry) {
                names.insert(NameKey::new(&entry.name))?;
            }
        }
        Ok(())
    }

    /// Adds the names of the members of a cluster to no names.
    fn note_members(
        &self,
        members: &[u32],
        names: &mut BTreeSet<NameKey<'a>>,
    ) -> Result<(), AllocError>
        requires within { All (λ number. number < length self.now.packages) members.now }
        requires none { names.old.keys ≡ [] }
        ensures { OnOk result (Adds [] names.new.keys (IsNameOfCluster self.now members.now)) }
    {
        for number in members {
            self.note_moved(self.repo.package(*number), names)?;
        }
        Ok(())
    }

    /// The names of the members of a cluster, each once.
    fn names_of(&self, members: &[u32]) -> Result<BTreeSet<NameKey<'a>>, AllocError>
        requires { All (λ number. number < length self.now.packages) members.now }
        ensures { IfOk result (λ names. Adds [] names.keys (IsNameOfCluster self.now members.now)) }
    {
        let mut names = BTreeSet::new(self.alloc);
        match self.note_members(members, &mut names) {
            Ok(()) => Ok(names),
            Err(error) => {
                drop(names);
                Err(error)
            }
        }
    }

    /// Adds the versions in bounds on some names that are above another one.
    fn collect_names(
        &self,
        names: &BTreeSet<NameKey<'a>>,
        top: &Version,
        found: &mut Vec<TextKey<'a>>,
    ) -> Result<(), AllocError>
        ensures { OnOk result (AddsLeast found.old.items found.new.items (λ v. IsBelow top.now v × IsBoundOn self.now (Contains names.now.keys) v)) }
    {
        let keys = names.iter();
        for key in keys {
            self.collect_above(key, top, found)?;
        }
        Ok(())
    }

    /// Adds the versions above the top of a cluster in bounds on the names of its members.
    fn collect_members(
        &self,
        members: &[u32],
        top: &Version,
        found: &mut Vec<TextKey<'a>>,
    ) -> Result<(), AllocError>
        requires { All (λ number. number < length self.now.packages) members.now }
        ensures { OnOk result (AddsLeast found.old.items found.new.items (IsClusterCut self.now members.now top.now)) }
    {
        let names = self.names_of(members)?;
        let collected = self.collect_names(&names, top, found);
        drop(names);
        collected
    }

    /// The classes of the versions above the top of a cluster, whose cuts are found into an empty list.
    fn classes_by(
        &self,
        members: &[u32],
        top: &Version,
        found: &mut Vec<TextKey<'a>>,
    ) -> Result<Classes, AllocError>
        requires within { All (λ number. number < length self.now.packages) members.now }
        requires none { found.old.items ≡ [] }
        ensures { IfOk result (AreClassesOf self.now members.now top.now) }
    {
        self.collect_members(members, top, found)?;
        found.sort()?;
        classes_above(self.alloc, top, found)
    }

    /// The classes of the versions above the top of a cluster.
    pub fn classes_of(&self, members: &[u32], top: &Version) -> Result<Classes, AllocError>
        requires { All (λ number. number < length self.now.packages) members.now }
        ensures { IfOk result (AreClassesOf self.now members.now top.now) }
    {
        let mut found = Vec::new(self.alloc);
        let classes = self.classes_by(members, top, &mut found);
        drop(found);
        classes
    }

    /// The classes of the versions above the top of a cluster of the repository, by its number.
    pub fn classes_of_cluster(
        &self,
        clusters: &Clusters,
        cluster: u32,
    ) -> Result<Classes, AllocError>
        requires clusters { AreClustersOf self.now clusters.now }
        requires cluster { cluster < length clusters.now.members }
        ensures { IfOk result (AreClassesOf self.now (slice_index_or clusters.now.members cluster []) (slice_index_or clusters.now.tops cluster [])) }
    {
        self.classes_of(clusters.members(cluster), clusters.top(cluster))
    }

    /// The classes of the versions of a new name, whose cuts are found into an empty list.
    fn classes_by_name(
        &self,
        name: &Name,
        found: &mut Vec<TextKey<'a>>,
    ) -> Result<Classes, AllocError>
        requires { found.old.items ≡ [] }
        ensures { IfOk result (AreClassesOfName self.now name.now) }
    {
        self.collect(&NameKey::new(name), found)?;
        found.sort()?;
        classes_of_all(self.alloc, found)
    }

    /// The classes of the versions of a new name.
    pub fn classes_of_new_name(&self, name: &Name) -> Result<Classes, AllocError>
        ensures { IfOk result (AreClassesOfName self.now name.now) }
    {
        let mut found = Vec::new(self.alloc);
        let classes = self.classes_by_name(name, &mut found);
        drop(found);
        classes
    }
}

/// The classes of the versions above the top of a cluster. For those of many clusters see [`CutFinder`].
pub fn classes_of(
    alloc: Global,
    repo: &Repository,
    members: &[u32],
    top: &Version,
) -> Result<Classes, AllocError>
    requires { All (λ number. number < length repo.now.packages) members.now }
    ensures { IfOk result (AreClassesOf repo.now members.now top.now) }
{
    let finder = CutFinder::new(alloc, repo)?;
    let classes = finder.classes_of(members, top);
    drop(finder);
    classes
}

/// The classes of the versions of a new name. For those of many names see [`CutFinder`].
pub fn classes_of_new_name(
    alloc: Global,
    repo: &Repository,
    name: &Name,
) -> Result<Classes, AllocError>
    ensures { IfOk result (AreClassesOfName repo.now name.now) }
{
    let finder = CutFinder::new(alloc, repo)?;
    let classes = finder.classes_of_new_name(name);
    drop(finder);
    classes
}
