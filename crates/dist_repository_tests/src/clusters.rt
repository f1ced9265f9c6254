//! Worked rows: which packages are in one cluster, and the top of each.
ghost use Rattle.std.specs.Prelude.{◌≡◌, ◌+◌, ◌<◌, ◌≤◌, IsTrue, length};

use dist_cluster::{
    Clusters, Keys, clustered_is_an_equivalence, clusters_of, partitions_are_one, tops_are_one,
};
use dist_version::Version;
use std::alloc::Global;

/// A package: its source, the source's version, and its own version.
type Row = (&'static str, &'static str, &'static str);

/// Adds a package whose source has this version, and says whether it did.
fn add_of(alloc: Global, keys: &mut Keys, row: &Row, source_version: &Version) -> bool
    ensures more { length keys.new ≤ length keys.old + 1 }
    ensures added { IsTrue result → length keys.new ≡ length keys.old + 1 }
{
    match Version::read(alloc, row.2.as_bytes()) {
        Ok(version) => {
            let added = keys.add(row.0.as_bytes(), source_version, &version).is_ok();
            drop(version);
            added
        }
        Err(_) => false,
    }
}

/// Adds a package, and says whether it did.
fn add(alloc: Global, keys: &mut Keys, row: &Row) -> bool
    ensures more { length keys.new ≤ length keys.old + 1 }
    ensures added { IsTrue result → length keys.new ≡ length keys.old + 1 }
{
    match Version::read(alloc, row.1.as_bytes()) {
        Ok(source_version) => {
            let added = add_of(alloc, keys, row, &source_version);
            drop(source_version);
            added
        }
        Err(_) => false,
    }
}

/// Adds four packages, and says whether it did.
fn add_all(alloc: Global, keys: &mut Keys, rows: &[Row; 4]) -> bool
    ensures { length keys.new ≤ length keys.old + 4 }
{
    add(alloc, keys, &rows[0])
        && add(alloc, keys, &rows[1])
        && add(alloc, keys, &rows[2])
        && add(alloc, keys, &rows[3])
}

/// Whether the clusters have these members and tops.
fn are(clusters: &Clusters, expected: &[(&'static [u32], &'static str)]) -> bool {
    if clusters.len() as usize != expected.len() {
        return false;
    }
    for number in 0..clusters.len() {
        let (members, top) = expected[number as usize];
        if clusters.members(number) != members || clusters.top(number).text() != top.as_bytes() {
            return false;
        }
    }
    true
}

/// Four packages, and the members and tops of their clusters.
type Partition = (&'static [Row; 4], &'static [(&'static [u32], &'static str)]);

const PARTITIONS: &[Partition] = &[
    // The name of the source alone does not make a cluster, nor does its version.
    (
        &[
            ("s", "1", "1"),
            ("s", "2", "2"),
            ("t", "1", "1"),
            ("s", "1", "2"),
        ],
        &[(&[0], "1"), (&[1], "2"), (&[2], "1"), (&[3], "2")],
    ),
    // Equal versions of a source may differ in their texts, and the top is the text least in bytes.
    (
        &[
            ("z", "1", "1"),
            ("a", "3", "3"),
            ("z", "0:1", "1-0"),
            ("z", "1", "0:1"),
        ],
        &[(&[0, 2, 3], "0:1"), (&[1], "3")],
    ),
    // A rebuild stays in its cluster, and its suffix counts for the top. It is taken off once.
    (
        &[
            ("s", "1", "1+b1"),
            ("s", "1", "1+b1+b2"),
            ("s", "1", "1+b10"),
            ("s", "1", "1"),
        ],
        &[(&[0, 2, 3], "1+b10"), (&[1], "1+b1+b2")],
    ),
];

/// Whether the clusters of packages have these members and tops.
fn are_of(alloc: Global, keys: &Keys, expected: &[(&'static [u32], &'static str)]) -> bool
    requires { length keys.now < 100 }
{
    match clusters_of(alloc, keys) {
        Ok(clusters) => {
            let same = are(&clusters, expected);
            drop(clusters);
            same
        }
        Err(_) => false,
    }
}

/// Whether the clusters of a row's packages are as it says.
fn is_parted(alloc: Global, row: &Partition) -> bool {
    let mut keys = Keys::new(alloc);
    let same = add_all(alloc, &mut keys, row.0) && are_of(alloc, &keys, row.1);
    drop(keys);
    same
}

/// The place of the first row whose packages are parted otherwise.
fn wrong_partition(alloc: Global, rows: &[Partition]) -> Option<usize> {
    for place in 0..rows.len() {
        if !is_parted(alloc, &rows[place]) {
            return Some(place);
        }
    }
    None
}

#[test]
fn partitions(rt: HostRuntime) {
    assert_eq!(rt; wrong_partition(rt.alloc(), PARTITIONS), None);
}

/// The number of the cluster of a package.
fn own_cluster(alloc: Global, keys: &Keys, member: u32) -> Option<u32>
    requires few { length keys.now < 100 }
    requires member { member < length keys.now }
{
    match clusters_of(alloc, keys) {
        Ok(clusters) => {
            let number = clusters.cluster_of(member);
            drop(clusters);
            Some(number)
        }
        Err(_) => None,
    }
}

/// Whether the first and the third of three packages are of the first cluster, and the second is of the other one.
fn are_numbered(alloc: Global, keys: &mut Keys, rows: &[Row; 3]) -> bool
    requires { length keys.old ≡ 0 }
{
    add(alloc, keys, &rows[0])
        && add(alloc, keys, &rows[1])
        && add(alloc, keys, &rows[2])
        && own_cluster(alloc, keys, 0) == Some(0)
        && own_cluster(alloc, keys, 1) == Some(1)
        && own_cluster(alloc, keys, 2) == Some(0)
}

const MEMBERS: [Row; 3] = [("b", "1", "1"), ("a", "1", "1"), ("b", "1", "1+b3")];

/// The same of three packages alone.
fn have_their_clusters(alloc: Global, rows: &[Row; 3]) -> bool {
    let mut keys = Keys::new(alloc);
    let numbered = are_numbered(alloc, &mut keys, rows);
    drop(keys);
    numbered
}

#[test]
fn each_member_has_its_cluster(rt: HostRuntime) {
    assert!(rt; have_their_clusters(rt.alloc(), &MEMBERS));
}

#[test]
fn laws_hold(_rt: HostRuntime) {
    clustered_is_an_equivalence();
    partitions_are_one();
    tops_are_one();
}
