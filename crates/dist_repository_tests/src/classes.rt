//! Worked rows: the classes of each cluster and of each new name, with their examples.
ghost use Rattle.std.specs.Prelude.{◌+◌, ◌<◌, length};
ghost use Rattle.dist_classes.specs.Answers.{AreClustersOf};
ghost use Rattle.dist_classes.specs.ClassList.{HasVersions};

use dist_classes::{
    Class, Classes, CutFinder, Names, class_has_example, class_of, classes_are_there, classes_of,
    classes_of_new_name, cuts_are_one, example, new_names, new_names_are_one,
    new_names_match_alike, new_versions_match_alike, no_class_is_empty, print_class,
    repository_clusters, versions_are_in_one_class,
};
use dist_cluster::Clusters;
use dist_relation::Name;
use dist_repo::Repository;
use dist_samples::repository;
use dist_version::Version;
use std::alloc::Global;

/// Two packages, and the classes of their clusters, each list behind a bar, and of their new names.
type Case = (&'static str, &'static str);

/// Two bounds cut five classes, and a package that no bound names has one.
const TWO_BOUNDS: Case = (
    "Package: libx\nVersion: 1.0-1\n\nPackage: p\nVersion: 1\nDepends: libx (<< 2.0) | libx (>= 3)\n",
    ">> 1.0-1, << 2.0 1.0-1A~~~;= 2.0 2.0;>> 2.0, << 3 2.0-0A~;= 3 3;>> 3 3-0A;|>> 1 1-0A;|",
);

const CASES: &[Case] = &[
    TWO_BOUNDS,
    // Between a version and the one just above it there is one.
    (
        "Package: a\nVersion: 1\n\nPackage: p\nVersion: 1\nDepends: a (<< 1-0A)\n",
        ">> 1, << 1-0A 1-0A~~~~;= 1-0A 1-0A;>> 1-0A 1-0A0A;|>> 1 1-0A;|",
    ),
    // A bound at or below the top is no cut, equal bounds are one in the text least in bytes, and conflicts have bounds too.
    (
        "Package: a\nVersion: 2\n\nPackage: p\nVersion: 1\nDepends: a (<< 2-0), a (>= 1), a (= 3-0)\nConflicts: a (<< 3), a (>= 0:3)\n",
        ">> 2, << 0:3 2-0A~~~;= 0:3 0:3;>> 0:3 0:3-0A;|>> 1 1-0A;|",
    ),
    // A provided name that moves with its package has its cuts, and one that doesn't, or can't be used, has none.
    (
        "Package: libx\nVersion: 1\nSource: s\nProvides: abi (= 0:1), old (= 0.9), other:i386 (= 1)\n\nPackage: p\nVersion: 1\nSource: s\nDepends: abi (= 5), old (= 6), other (= 7), other\n",
        ">> 1, << 5 1-0A~;= 5 5;>> 5 5-0A;|other:<< 7 ~~;= 7 7;>> 7 7-0A;",
    ),
    // The greatest version of a cluster is its top, rebuild suffix included.
    (
        "Package: a\nVersion: 3.11.2-1+b1\nSource: s (3.11.2-1)\nDepends: b (>= 3.11.2-1~)\n\nPackage: b\nVersion: 3.11.2-1\nSource: s\nDepends: c:any (<< 1), c:i386 (>= 2), d\nConflicts: c (>= 1)\n",
        ">> 3.11.2-1+b1 3.11.2-1+b1A;|c:<< 1 ~~;= 1 1;>> 1 1-0A;d:any 0;",
    ),
];

/// Adds a class with its example.
fn print_with_example(alloc: Global, class: &Class, out: &mut Vec<u8>) -> Option<()>
    requires { HasVersions class.now }
{
    class_has_example(class);
    print_class(class, out).ok()?;
    out.push(b' ').ok()?;
    let example = example(alloc, class).ok()?;
    let printed = out.extend_from_slice(example.text());
    drop(example);
    printed.ok()?;
    out.push(b';').ok()
}

/// Adds each class with its example.
fn print_classes(alloc: Global, classes: &Classes, out: &mut Vec<u8>) -> Option<()> {
    for place in 0..classes.len() {
        print_with_example(alloc, classes.get(place), out)?;
    }
    Some(())
}

/// Adds the classes of a cluster and a bar.
fn print_cluster(
    alloc: Global,
    finder: &CutFinder<'_>,
    clusters: &Clusters,
    cluster: u32,
    out: &mut Vec<u8>,
) -> Option<()>
    requires clusters { AreClustersOf finder.now clusters.now }
    requires cluster { cluster < length clusters.now.members }
{
    let classes = finder.classes_of_cluster(clusters, cluster).ok()?;
    let printed = print_classes(alloc, &classes, out);
    drop(classes);
    printed?;
    out.push(b'|').ok()
}

/// Adds the classes of all clusters.
fn print_clusters(
    alloc: Global,
    finder: &CutFinder<'_>,
    clusters: &Clusters,
    out: &mut Vec<u8>,
) -> Option<()>
    requires { AreClustersOf finder.now clusters.now }
{
    for cluster in 0..clusters.len() {
        print_cluster(alloc, finder, clusters, cluster, out)?;
    }
    Some(())
}

/// Adds the classes of all clusters, which are those of a repository.
fn print_found(
    alloc: Global,
    repo: &Repository,
    clusters: &Clusters,
    out: &mut Vec<u8>,
) -> Option<()>
    requires { AreClustersOf repo.now clusters.now }
{
    let finder = CutFinder::new(alloc, repo).ok()?;
    let printed = print_clusters(alloc, &finder, clusters, out);
    drop(finder);
    printed
}

/// Adds the classes of all clusters of a repository.
fn print_all(alloc: Global, repo: &Repository, out: &mut Vec<u8>) -> Option<()>
    requires { length repo.now.packages < 100 }
{
    let clusters = repository_clusters(alloc, repo).ok()?;
    let printed = print_found(alloc, repo, &clusters, out);
    drop(clusters);
    printed
}

/// Adds a new name and its classes.
fn print_name(alloc: Global, repo: &Repository, name: &Name, out: &mut Vec<u8>) -> Option<()> {
    out.extend_from_slice(name.bytes()).ok()?;
    out.push(b':').ok()?;
    let classes = classes_of_new_name(alloc, repo, name).ok()?;
    let printed = print_classes(alloc, &classes, out);
    drop(classes);
    printed
}

/// Adds these names.
fn print_each(alloc: Global, repo: &Repository, names: &Names, out: &mut Vec<u8>) -> Option<()> {
    for place in 0..names.len() {
        print_name(alloc, repo, names.get(place), out)?;
    }
    Some(())
}

/// Adds all new names.
fn print_names(alloc: Global, repo: &Repository, out: &mut Vec<u8>) -> Option<()> {
    let names = new_names(alloc, repo).ok()?;
    let printed = print_each(alloc, repo, &names, out);
    drop(names);
    printed
}

/// Whether the classes of all clusters and of all new names are these.
fn are(alloc: Global, repo: &Repository, expected: &str) -> bool {
    let mut out = Vec::new(alloc);
    let same = repo.len() == 2
        && print_all(alloc, repo, &mut out).is_some()
        && print_names(alloc, repo, &mut out).is_some()
        && out.as_slice() == expected.as_bytes();
    drop(out);
    same
}

/// Whether a case is as expected.
fn holds(alloc: Global, case: &Case) -> bool {
    match repository(alloc, case.0) {
        Some(repo) => {
            let told = are(alloc, &repo, case.1);
            drop(repo);
            told
        }
        None => false,
    }
}

/// The place of the first case that isn't as expected.
fn first_wrong(alloc: Global, cases: &[Case]) -> Option<usize> {
    for place in 0..cases.len() {
        if !holds(alloc, &cases[place]) {
            return Some(place);
        }
    }
    None
}

#[test]
fn classes_are_cut_at_bounds(rt: HostRuntime) {
    assert!(rt; first_wrong(rt.alloc(), CASES).is_none());
}

/// A version, and the number of its class, if it has one.
type Numbered = (&'static str, Option<u32>);

/// Versions, each with the number of its class above 1.0-1 between the two bounds, if it has one.
const NUMBERS: &[Numbered] = &[("1.0-1", None), ("2.0-0", Some(1)), ("9", Some(4))];

/// The classes above the first package of a repository.
fn classes_above_first(alloc: Global, repo: &Repository) -> Option<Classes> {
    if repo.len() == 0 {
        return None;
    }
    classes_of(alloc, repo, &[0], &repo.package(0).version).ok()
}

/// Whether a version has this number.
fn has_number(alloc: Global, classes: &Classes, row: &Numbered) -> bool {
    match Version::read(alloc, row.0.as_bytes()) {
        Ok(version) => {
            let number = class_of(classes, &version);
            drop(version);
            number == row.1
        }
        Err(_) => false,
    }
}

/// The first version of another number.
fn wrong_number(alloc: Global, classes: &Classes, rows: &[Numbered]) -> Option<&'static str> {
    for row in rows {
        if !has_number(alloc, classes, row) {
            return Some(row.0);
        }
    }
    None
}

/// The same among the classes above the first package of a repository.
fn wrong_above_first(alloc: Global, repo: &Repository, rows: &[Numbered]) -> Option<&'static str> {
    match classes_above_first(alloc, repo) {
        Some(classes) => {
            let wrong = wrong_number(alloc, &classes, rows);
            drop(classes);
            wrong
        }
        None => Some("no classes"),
    }
}

/// The same of the repository of some stanzas.
fn wrong_of(alloc: Global, stanzas: &str, rows: &[Numbered]) -> Option<&'static str> {
    match repository(alloc, stanzas) {
        Some(repo) => {
            let wrong = wrong_above_first(alloc, &repo, rows);
            drop(repo);
            wrong
        }
        None => Some("no repository"),
    }
}

#[test]
fn versions_are_of_one_class(rt: HostRuntime) {
    assert_eq!(rt; wrong_of(rt.alloc(), TWO_BOUNDS.0, NUMBERS), None);
}

#[test]
fn laws_hold(_rt: HostRuntime) {
    versions_are_in_one_class();
    classes_are_there();
    cuts_are_one();
    no_class_is_empty();
    new_names_are_one();
    new_versions_match_alike();
    new_names_match_alike();
}
