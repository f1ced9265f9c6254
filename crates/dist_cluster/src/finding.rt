//! How clusters are found: the members are gone through once, and a map has the number of the cluster of each that was seen.
ghost use Rattle.std.specs.Prelude.{◌≡◌, ◌+◌, ◌<◌, ◌++◌, ◌∷◌, [], All, IfOk, OnOk, length, slice_index_or, slice_set};
ghost use Rattle.dist_cluster.specs.Found.{AreFound};
ghost use Rattle.dist_cluster.specs.Partition.{IsPartition};
ghost use Rattle.dist_cluster.specs.Top.{AreTops};

use crate::cluster_list::Clusters;
use crate::key_list::{ClusterKey, Entry, Keys};
use crate::topmost::top_of;
use dist_base::Flat;
use dist_version::Version;
use std::alloc::{AllocError, Global};
use std::collections::BTreeMap;
use std::marker::Model;

/// The numbers of the members of one cluster.
#[derive(Drop)]
struct Numbers {
    numbers: Vec<u32>,
}

impl Model for Numbers {
    ghost use Rattle.std.specs.Prelude.{ℕ, List};

    ghost Value = { List ℕ };

    ghost view = { λ n. n.numbers.items };
}

impl Numbers {
    /// One number.
    fn of(alloc: Global, number: u32) -> Result<Numbers, AllocError>
        ensures { IfOk result (λ numbers. numbers ≡ number ∷ []) }
    {
        let mut numbers = Vec::new(alloc);
        numbers.push(number)?;
        Ok(Numbers { numbers })
    }

    /// Adds a number as the last one.
    fn push(&mut self, number: u32) -> Result<(), AllocError>
        ensures { OnOk result (self.new ≡ self.old ++ number ∷ []) }
    {
        self.numbers.push(number)?;
        Ok(())
    }

    /// The numbers, in their order.
    fn as_slice(&self) -> &[u32]
        ensures { result.now ≡ self.now }
    {
        self.numbers.as_slice()
    }
}

/// What is found so far.
#[derive(Drop)]
struct Finding<'a> {
    alloc: Global,
    /// For each cluster, by the key of its members, its number.
    numbers: BTreeMap<ClusterKey<'a>, u32>,
    clusters: Vec<Numbers>,
    cluster_of: Vec<u32>,
}

/// Puts a member into a cluster that is there.
fn join(clusters: &mut Vec<Numbers>, cluster: u32, member: u32) -> Result<(), AllocError>
    requires { cluster < length clusters.old.items }
    ensures { OnOk result (clusters.new.items
        ≡ slice_set clusters.old.items cluster (slice_index_or clusters.old.items cluster [] ++ member ∷ [])) }
{
    clusters[cluster as usize].push(member)
}

impl<'a> Finding<'a> {
    /// No clusters yet.
    fn new(alloc: Global) -> Finding<'a>
        ensures numbers { result.numbers.entries ≡ [] }
        ensures clusters { result.clusters.items ≡ [] }
        ensures cluster_of { result.cluster_of.items ≡ [] }
    {
        Finding {
            alloc,
            numbers: BTreeMap::new(alloc),
            clusters: Vec::new(alloc),
            cluster_of: Vec::new(alloc),
        }
    }

    /// Finds the cluster of the next member.
    fn place(&mut self, entries: &'a [Entry], member: u32) -> Result<(), AllocError>
        requires within { member < length entries.now }
        requires found { AreFound entries.now member self.old.numbers.entries self.old.clusters.items self.old.cluster_of.items }
        ensures { OnOk result (AreFound entries.now (member + 1) self.new.numbers.entries self.new.clusters.items self.new.cluster_of.items) }
    {
        let key = ClusterKey::new(&entries[member as usize]);
        if let Some(number) = self.numbers.get(&key) {
            let number = *number;
            join(&mut self.clusters, number, member)?;
            self.cluster_of.push(number)?;
            return Ok(());
        }
        let number = self.clusters.len() as u32;
        self.clusters.push(Numbers::of(self.alloc, member)?)?;
        self.cluster_of.push(number)?;
        self.numbers.insert(key, number)?;
        Ok(())
    }
}

/// Goes through all members.
fn find<'a>(alloc: Global, entries: &'a [Entry]) -> Result<Finding<'a>, AllocError>
    requires { length entries.now < 4294967295 }
    ensures { IfOk result (λ found. AreFound entries.now (length entries.now) found.numbers.entries found.clusters.items found.cluster_of.items) }
{
    let mut finding = Finding::new(alloc);
    for member in 0..entries.len() {
        finding.place(entries, member as u32)?;
    }
    Ok(finding)
}

/// The lists laid flat.
fn flattened(alloc: Global, clusters: &[Numbers]) -> Result<Flat<u32>, AllocError>
    ensures { IfOk result (λ flat. flat ≡ clusters.now) }
{
    let mut flat = Flat::new(alloc);
    for numbers in clusters {
        flat.push(numbers.as_slice())?;
    }
    Ok(flat)
}

/// The top of each cluster.
fn tops_of(
    alloc: Global,
    entries: &[Entry],
    clusters: &[Numbers],
) -> Result<Vec<Version>, AllocError>
    requires some { All (λ cluster. 0 < length cluster) clusters.now }
    requires within { All (λ cluster. All (λ n. n < length entries.now) cluster) clusters.now }
    ensures { IfOk result (λ tops. AreTops entries.now (record { members = clusters.now; tops = tops.items })) }
{
    let mut tops = Vec::new(alloc);
    for numbers in clusters {
        tops.push(top_of(entries, numbers.as_slice()).try_clone()?)?;
    }
    Ok(tops)
}

/// The clusters of packages, which are numbered by their places. They are found in one walk over the packages.
pub fn clusters_of(alloc: Global, keys: &Keys) -> Result<Clusters, AllocError>
    requires { length keys.now < 4294967295 }

    // Two packages are in one cluster exactly where they are clustered, and each cluster has its top.
    ensures partition { IfOk result (λ clusters. IsPartition keys.now clusters.members) }
    ensures tops { IfOk result (λ clusters. AreTops keys.now clusters) }
{
    let entries = keys.entries();
    let Finding {
        clusters,
        cluster_of,
        ..
    } = find(alloc, entries)?;
    let members = flattened(alloc, &clusters)?;
    let tops = tops_of(alloc, entries, &clusters)?;
    Ok(Clusters {
        members,
        tops,
        cluster_of,
    })
}
