//! The clusters, classes and new names of a repository.
ghost use Rattle.std.specs.Prelude.{◌≡◌, ◌<◌, ◌↔◌, ◌^◌, ℕ, [], All, Any, Contains, IfOk, IsTrue, Some, OnOk, length, slice_get};
ghost use Rattle.dist_cluster.specs.Partition.{IsIn};
ghost use Rattle.dist_repo.specs.Match.{IsUsable};
ghost use Rattle.dist_repo.specs.Order.{IsFlat};
ghost use Rattle.dist_repo.specs.Size.{IsWithinSize};
ghost use Rattle.dist_classes.specs.Answers.{AreClustersOf};
ghost use Rattle.dist_classes.specs.NewNames.{AreNewNames};
ghost use Rattle.dist_space.specs.Kept.{AreClassesBeside, AreNameClassesBeside, IsFrameOf};
ghost use Rattle.dist_space.specs.Space.{cluster_classes, fresh_classes};

use crate::exampled::Exampled;
use dist_classes::{CutFinder, Names, new_names, repository_clusters};
use dist_cluster::Clusters;
use dist_relation::Qualifier;
use dist_repo::{Package, Repository};
use std::alloc::{AllocError, Global};
use std::marker::Model;

/// A flat repository with its clusters, its new names, and the classes of each.
#[derive(Drop)]
pub(crate) struct Frame {
    pub(crate) repo: Repository,
    pub(crate) essential: bool,
    pub(crate) clusters: Clusters,
    /// For each package the number of its cluster.
    pub(crate) cluster_of: Vec<u32>,
    pub(crate) classes: Vec<Exampled>,
    pub(crate) names: Names,
    pub(crate) name_classes: Vec<Exampled>,
}

impl Model for Frame {
    ghost use Rattle.std.specs.Prelude.{[]};
    ghost use Rattle.dist_space.specs.Kept.{IsSizedFrame};
    ghost use Rattle.dist_space.specs.Space.{SpaceView};

    ghost Value = { SpaceView };

    ghost view = { λ f. record {
      repository = f.repo;
      essential = f.essential;
      clusters = f.clusters;
      cluster_of = f.cluster_of.items;
      classes = f.classes.items;
      names = f.names;
      name_classes = f.name_classes.items;
      meanings = [];
    } };

    ghost invariant = { λ f. IsSizedFrame (record {
      repository = f.repo;
      essential = f.essential;
      clusters = f.clusters;
      cluster_of = f.cluster_of.items;
      classes = f.classes.items;
      names = f.names;
      name_classes = f.name_classes.items;
      meanings = [];
    }) };
}

/// Adds the number of the cluster of each package to an empty list.
fn push_cluster_numbers(
    clusters: &Clusters,
    packages: u32,
    numbers: &mut Vec<u32>,
) -> Result<(), AllocError>
    requires every { (m : ℕ) → m < packages → Any (λ cluster. Contains cluster m) clusters.now.members }
    requires within { (c m : ℕ) → IsIn clusters.now.members c m → m < packages }
    requires none { numbers.old.items ≡ [] }
    ensures { OnOk result ((c m : ℕ) → IsIn clusters.now.members c m ↔ (slice_get numbers.new.items m ≡ Some c)) }
{
    for member in 0..packages {
        numbers.push(clusters.cluster_of(member))?;
    }
    Ok(())
}

/// The number of the cluster of each package.
fn cluster_numbers(
    alloc: Global,
    clusters: &Clusters,
    packages: u32,
) -> Result<Vec<u32>, AllocError>
    requires every { (m : ℕ) → m < packages → Any (λ cluster. Contains cluster m) clusters.now.members }
    requires within { (c m : ℕ) → IsIn clusters.now.members c m → m < packages }
    ensures { IfOk result (λ numbers. (c m : ℕ) → IsIn clusters.now.members c m ↔ (slice_get numbers.items m ≡ Some c)) }
{
    let mut numbers = Vec::new(alloc);
    match push_cluster_numbers(clusters, packages, &mut numbers) {
        Ok(()) => Ok(numbers),
        Err(error) => {
            drop(numbers);
            Err(error)
        }
    }
}

/// Adds the classes of each cluster to an empty list.
fn push_cluster_classes(
    finder: &CutFinder,
    clusters: &Clusters,
    classes: &mut Vec<Exampled>,
) -> Result<(), AllocError>
    requires clusters { AreClustersOf finder.now clusters.now }
    requires none { classes.old.items ≡ [] }
    ensures { OnOk result (AreClassesBeside finder.now clusters.now classes.new.items) }
{
    for cluster in 0..clusters.len() {
        classes.push(Exampled::new(finder.classes_of_cluster(clusters, cluster)?)?)?;
    }
    Ok(())
}

/// The classes of each cluster.
fn cluster_classes_of(
    alloc: Global,
    finder: &CutFinder,
    clusters: &Clusters,
) -> Result<Vec<Exampled>, AllocError>
    requires { AreClustersOf finder.now clusters.now }
    ensures { IfOk result (λ classes. AreClassesBeside finder.now clusters.now classes.items) }
{
    let mut classes = Vec::new(alloc);
    match push_cluster_classes(finder, clusters, &mut classes) {
        Ok(()) => Ok(classes),
        Err(error) => {
            drop(classes);
            Err(error)
        }
    }
}

/// Adds the classes of each new name to an empty list.
fn push_name_classes<'a>(
    finder: &CutFinder<'a>,
    names: &'a Names,
    classes: &mut Vec<Exampled>,
) -> Result<(), AllocError>
    requires { classes.old.items ≡ [] }
    ensures { OnOk result (AreNameClassesBeside finder.now names.now classes.new.items) }
{
    for name in 0..names.len() {
        classes.push(Exampled::new(finder.classes_of_new_name(names.get(name))?)?)?;
    }
    Ok(())
}

/// The classes of each new name.
fn name_classes_of<'a>(
    alloc: Global,
    finder: &CutFinder<'a>,
    names: &'a Names,
) -> Result<Vec<Exampled>, AllocError>
    ensures { IfOk result (λ classes. AreNameClassesBeside finder.now names.now classes.items) }
{
    let mut classes = Vec::new(alloc);
    match push_name_classes(finder, names, &mut classes) {
        Ok(()) => Ok(classes),
        Err(error) => {
            drop(classes);
            Err(error)
        }
    }
}

/// The classes of each cluster and of each new name.
#[derive(Drop)]
struct AllClasses {
    of_clusters: Vec<Exampled>,
    of_names: Vec<Exampled>,
}

/// Finds the classes of each cluster and of each new name.
fn found_classes<'a>(
    alloc: Global,
    finder: &CutFinder<'a>,
    clusters: &Clusters,
    names: &'a Names,
) -> Result<AllClasses, AllocError>
    requires { AreClustersOf finder.now clusters.now }
    ensures clusters { IfOk result (λ found. AreClassesBeside finder.now clusters.now found.of_clusters.items) }
    ensures names { IfOk result (λ found. AreNameClassesBeside finder.now names.now found.of_names.items) }
{
    let of_clusters = cluster_classes_of(alloc, finder, clusters)?;
    match name_classes_of(alloc, finder, names) {
        Ok(of_names) => Ok(AllClasses {
            of_clusters,
            of_names,
        }),
        Err(error) => {
            drop(of_clusters);
            Err(error)
        }
    }
}

/// The classes of each cluster and of each new name of a repository.
fn all_classes(
    alloc: Global,
    repo: &Repository,
    clusters: &Clusters,
    names: &Names,
) -> Result<AllClasses, AllocError>
    requires { AreClustersOf repo.now clusters.now }
    ensures clusters { IfOk result (λ found. AreClassesBeside repo.now clusters.now found.of_clusters.items) }
    ensures names { IfOk result (λ found. AreNameClassesBeside repo.now names.now found.of_names.items) }
{
    let finder = CutFinder::new(alloc, repo)?;
    let found = found_classes(alloc, &finder, clusters, names);
    drop(finder);
    found
}

/// The clusters of a repository's packages.
#[derive(Drop)]
struct Clustered {
    clusters: Clusters,
    /// For each package the number of its cluster.
    cluster_of: Vec<u32>,
}

/// Finds the clusters, and for each package the number of its cluster.
fn find_clusters(alloc: Global, repo: &Repository) -> Result<Clustered, AllocError>
    requires { IsWithinSize repo.now }
    ensures clusters { IfOk result (λ found. AreClustersOf repo.now found.clusters) }
    ensures numbers { IfOk result (λ found. (c m : ℕ) → IsIn found.clusters.members c m ↔ (slice_get found.cluster_of.items m ≡ Some c)) }
{
    let clusters = repository_clusters(alloc, repo)?;
    match cluster_numbers(alloc, &clusters, repo.len()) {
        Ok(cluster_of) => Ok(Clustered {
            clusters,
            cluster_of,
        }),
        Err(error) => {
            drop(clusters);
            Err(error)
        }
    }
}

/// The new names. More than 4,294,967,295 are want of memory.
fn few_names(alloc: Global, repo: &Repository) -> Result<Names, AllocError>
    ensures names { IfOk result (AreNewNames repo.now) }
    ensures few { IfOk result (λ names. length names < 2 ^ 32) }
{
    let names = new_names(alloc, repo)?;
    if names.len() > u32::MAX as usize {
        drop(names);
        return Err(AllocError);
    }
    Ok(names)
}

/// The clusters of a repository's packages, and its new names.
#[derive(Drop)]
struct Parts {
    clustered: Clustered,
    names: Names,
}

/// Finds the clusters and the new names.
fn parts_of(alloc: Global, repo: &Repository) -> Result<Parts, AllocError>
    requires { IsWithinSize repo.now }
    ensures clusters { IfOk result (λ found. AreClustersOf repo.now found.clustered.clusters) }
    ensures numbers { IfOk result (λ found. (c m : ℕ) → IsIn found.clustered.clusters.members c m ↔ (slice_get found.clustered.cluster_of.items m ≡ Some c)) }
    ensures names { IfOk result (λ found. AreNewNames repo.now found.names) }
    ensures few { IfOk result (λ found. length found.names < 2 ^ 32) }
{
    let clustered = find_clusters(alloc, repo)?;
    match few_names(alloc, repo) {
        Ok(names) => Ok(Parts { clustered, names }),
        Err(error) => {
            drop(clustered);
            Err(error)
        }
    }
}

impl Frame {
    /// Finds clusters, new names and classes. A repository that is not flat is none that is taken. More than 4,294,967,295 new
    /// names are want of memory.
    pub(crate) fn new(alloc: Global, repo: Repository, essential: bool) -> Result<Frame, AllocError>
        requires flat { IsFlat repo.packages }
        requires within_size { IsWithinSize repo }
        ensures { IfOk result (IsFrameOf repo essential) }
    {
        match parts_of(alloc, &repo) {
            Ok(parts) => Frame::from_parts(alloc, repo, essential, parts),
            Err(error) => {
                drop(repo);
                Err(error)
            }
        }
    }

    /// Finds the classes beside clusters and new names.
    fn from_parts(
        alloc: Global,
        repo: Repository,
        essential: bool,
        parts: Parts,
    ) -> Result<Frame, AllocError>
        requires flat { IsFlat repo.packages }
        requires within_size { IsWithinSize repo }
        requires clusters { AreClustersOf repo parts.clustered.clusters }
        requires numbers { (c m : ℕ) → IsIn parts.clustered.clusters.members c m ↔ (slice_get parts.clustered.cluster_of.items m ≡ Some c) }
        requires names { AreNewNames repo parts.names }
        requires few { length parts.names < 2 ^ 32 }
        ensures { IfOk result (IsFrameOf repo essential) }
    {
        match all_classes(alloc, &repo, &parts.clustered.clusters, &parts.names) {
            Ok(found) => Ok(Frame {
                repo,
                essential,
                clusters: parts.clustered.clusters,
                cluster_of: parts.clustered.cluster_of,
                classes: found.of_clusters,
                names: parts.names,
                name_classes: found.of_names,
            }),
            Err(error) => {
                drop(repo);
                drop(parts);
                Err(error)
            }
        }
    }

    /// How many packages there are.
    pub(crate) fn package_count(&self) -> u32
        ensures { result ≡ length self.now.repository.packages }
    {
        self.repo.len()
    }

    /// The package of a number. Together the packages of a repository have fewer entries than 32 bits can number.
    pub(crate) fn package(&self, number: u32) -> &Package
        requires { number < length self.now.repository.packages }
        ensures value { slice_get self.now.repository.packages number ≡ Some result.now }
        ensures few_entries { length result.now.provides < 2 ^ 32 }
    {
        self.repo.package(number)
    }

    /// Whether an entry of Provides with this qualifier is usable.
    pub(crate) fn usable(&self, qualifier: &Qualifier) -> bool
        ensures { IsTrue result ↔ IsUsable self.now.repository.architecture qualifier.now }
    {
        self.repo.usable(qualifier)
    }

    /// How many clusters there are.
    pub(crate) fn cluster_count(&self) -> u32
        ensures { result ≡ length self.now.clusters.members }
    {
        self.clusters.len()
    }

    /// The members of a cluster.
    pub(crate) fn members(&self, cluster: u32) -> &[u32]
        requires { cluster < length self.now.clusters.members }
        ensures value { slice_get self.now.clusters.members cluster ≡ Some result.now }
        ensures within { All (λ member. member < length self.now.repository.packages) result.now }
    {
        self.clusters.members(cluster)
    }

    /// How many classes a cluster has.
    pub(crate) fn class_count(&self, cluster: u32) -> u32
        requires { cluster < length self.now.clusters.members }
        ensures { result ≡ length (cluster_classes self.now cluster) }
    {
        self.classes[cluster as usize].len()
    }

    /// How many new names there are.
    pub(crate) fn name_count(&self) -> u32
        ensures { result ≡ length self.now.names }
    {
        self.names.len() as u32
    }

    /// How many classes a new name has.
    pub(crate) fn name_class_count(&self, name: u32) -> u32
        requires { name < length self.now.names }
        ensures { result ≡ length (fresh_classes self.now name) }
    {
        self.name_classes[name as usize].len()
    }
}
