//! The classes of all clusters of a repository. They stand in one row, so that each has one number.
ghost use Rattle.std.specs.Prelude.{◌≡◌, ◌++◌, ◌↔◌, ◌<◌, ◌^◌, ℕ, All, IfOk, OnOk, Some, length, map, slice_get, slice_index_or, []};
ghost use Rattle.std.specs.List.{range_with_len};
ghost use Rattle.dist_cert.specs.Rising.{is_among};
ghost use Rattle.dist_classes.specs.Answers.{AreClassesOf, AreClustersOf};
ghost use Rattle.dist_classes.specs.ClassList.{HasExample};
ghost use Rattle.dist_report.specs.ChallengedReport.{class_pairs, has_pair};
ghost use Rattle.dist_report.specs.ClassTablePrivate.{AreKept};

use dist_classes::{Classes, CutFinder, class_has_example, repository_clusters};
use dist_cluster::Clusters;
use dist_repo::Repository;
use std::alloc::{AllocError, Global};
use std::marker::Model;

/// The pairs of all classes, and for each cluster the place of its first class.
#[derive(Drop)]
pub(crate) struct ClassRow {
    starts: Vec<u32>,
    pairs: Vec<(u32, u32)>,
}

impl Model for ClassRow {
    ghost use Rattle.std.specs.Prelude.{ℕ, List};
    ghost use Rattle.dist_report.specs.ClassTablePrivate.{IsRow};

    ghost Value = { List (ℕ × ℕ) };

    ghost view = { λ row. row.pairs.items };

    ghost invariant = { λ row. IsRow row.starts.items row.pairs.items };
}

/// Adds the pairs of a cluster's classes. More than 4,294,967,295 in all are want of memory.
fn push_pairs(pairs: &mut Vec<(u32, u32)>, cluster: u32, count: usize) -> Result<(), AllocError>
    requires { length pairs.old.items < 2 ^ 32 }
    ensures pairs { OnOk result (pairs.new.items ≡ pairs.old.items ++ map (λ class. (cluster, class)) (range_with_len 0 count)) }
    ensures few { OnOk result (length pairs.new.items < 2 ^ 32) }
{
    for class in 0..count {
        if pairs.len() >= u32::MAX as usize {
            return Err(AllocError);
        }
        pairs.push((cluster, class as u32))?;
    }
    Ok(())
}

impl ClassRow {
    /// The row of the classes of clusters.
    fn of(alloc: Global, classes: &[Classes]) -> Result<ClassRow, AllocError>
        requires { length classes.now < 2 ^ 32 }
        ensures { IfOk result (λ row. row ≡ class_pairs classes.now) }
    {
        let mut starts = Vec::new(alloc);
        let mut pairs = Vec::new(alloc);
        for cluster in 0..classes.len() {
            starts.push(pairs.len() as u32)?;
            push_pairs(&mut pairs, cluster as u32, classes[cluster].len())?;
        }
        Ok(ClassRow { starts, pairs })
    }

    /// How many classes there are.
    pub(crate) fn len(&self) -> usize
        ensures length { result ≡ length self.now }
        ensures few { result < 2 ^ 32 }
    {
        self.pairs.len()
    }

    /// The pair of a class, by its place.
    pub(crate) fn get(&self, place: u32) -> (u32, u32)
        requires { place < length self.now }
        ensures { slice_get self.now place ≡ Some result }
    {
        self.pairs[place as usize]
    }

    /// The place of a pair, if it is that of a class.
    fn place_of(&self, cluster: u32, class: u32) -> Option<u32>
        ensures { (place : ℕ) → (result ≡ Some place) ↔ (slice_get self.now place ≡ Some (cluster, class)) }
    {
        if cluster as usize >= self.starts.len() {
            return None;
        }
        let place = self.starts[cluster as usize] as usize + class as usize;
        if place >= self.pairs.len() {
            return None;
        }
        let (own_cluster, own_class) = self.pairs[place];
        if own_cluster == cluster && own_class == class {
            Some(place as u32)
        } else {
            None
        }
    }

    /// The places of pairs. Those of no class are passed over.
    pub(crate) fn places_of(
        &self,
        alloc: Global,
        pairs: &[(u32, u32)],
    ) -> Result<Vec<u32>, AllocError>
        ensures { IfOk result (λ places. (place : ℕ) (pair : ℕ × ℕ) → slice_get self.now place ≡ Some pair → is_among places.items place ≡ has_pair pairs.now pair) }
    {
        let mut places = Vec::new(alloc);
        for pair in pairs {
            match self.place_of(pair.0, pair.1) {
                Some(place) => places.push(place)?,
                None => {}
            }
        }
        Ok(places)
    }
}

/// The clusters of a repository, the classes of each, and their row.
#[derive(Drop)]
pub(crate) struct ClassTable {
    pub(crate) clusters: Clusters,
    pub(crate) classes: Vec<Classes>,
    pub(crate) row: ClassRow,
}

/// That no class of a cluster is empty.
fn have_examples(classes: &Classes)
    ensures { All HasExample classes.now }
{
    for place in 0..classes.len() {
        class_has_example(classes.get(place));
    }
}

/// The classes of a cluster.
fn own_classes(
    finder: &CutFinder<'_>,
    clusters: &Clusters,
    cluster: u32,
) -> Result<Classes, AllocError>
    requires clusters { AreClustersOf finder.now clusters.now }
    requires cluster { cluster < length clusters.now.members }
    ensures are { IfOk result (AreClassesOf finder.now (slice_index_or clusters.now.members cluster []) (slice_index_or clusters.now.tops cluster [])) }
    ensures examples { IfOk result (All HasExample) }
{
    let classes = finder.classes_of_cluster(clusters, cluster)?;
    have_examples(&classes);
    Ok(classes)
}

/// The classes of all clusters.
fn all_classes(
    alloc: Global,
    finder: &CutFinder<'_>,
    clusters: &Clusters,
) -> Result<Vec<Classes>, AllocError>
    requires { AreClustersOf finder.now clusters.now }
    ensures { IfOk result (λ classes. AreKept finder.now clusters.now classes.items) }
{
    let mut classes = Vec::new(alloc);
    for cluster in 0..clusters.len() {
        classes.push(own_classes(finder, clusters, cluster)?)?;
    }
    Ok(classes)
}

/// The clusters of a repository with their classes.
pub(crate) fn class_table(alloc: Global, repo: &Repository) -> Result<ClassTable, AllocError>
    ensures kept { IfOk result (λ table. AreKept repo.now table.clusters table.classes.items) }
    ensures row { IfOk result (λ table. table.row ≡ class_pairs table.classes.items) }
{
    if repo.len() == u32::MAX {
        // No memory has clusters of so many packages.
        return Err(AllocError);
    }
    let clusters = repository_clusters(alloc, repo)?;
    let finder = CutFinder::new(alloc, repo)?;
    let classes = all_classes(alloc, &finder, &clusters)?;
    if classes.len() > u32::MAX as usize {
        // No memory has numbers for so many clusters.
        return Err(AllocError);
    }
    let row = ClassRow::of(alloc, &classes)?;
    Ok(ClassTable {
        clusters,
        classes,
        row,
    })
}
