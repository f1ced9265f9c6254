//! Texts over the packages a=1, a=2 and b=1:0-3, in their order: sets of them, and single ones.
use dist_list::{ListError, lists_are_exact, names_are_exact, package_named, read_list};
use dist_repo::Repository;
use dist_samples::repository;
use std::alloc::Global;

const STANZAS: &str =
    "Package: a\nVersion: 1\n\nPackage: a\nVersion: 2\n\nPackage: b\nVersion: 1:0-3\n";

/// Whether each package is in the set that a text names, or the number of the first bad line.
type Named = Result<[bool; 3], u64>;

/// A text, and what it names.
type Row = (&'static str, Named);

const ROWS: &[Row] = &[
    ("", Ok([false, false, false])),
    ("a 1\n", Ok([true, false, false])),
    // The last line needs no LF.
    ("a 2\nb 1:0-3", Ok([false, true, true])),
    ("a 2\na 1\n", Ok([true, true, false])),
    // A package may stand twice, also by an equal version.
    ("a 1\na 1\n", Ok([true, false, false])),
    ("a 1-0\n", Ok([true, false, false])),
    ("a 1\na 0:1\n", Ok([true, false, false])),
    // Blank lines, spaces and tabs.
    ("\n \t\n\ta \t 1  \n\n", Ok([true, false, false])),
    // An unknown package, an unknown version, an epoch left out.
    ("c 1\n", Err(1)),
    ("a 1\na 3\n", Err(2)),
    ("b 0-3\n", Err(1)),
    // One word, three words, a version that is none.
    ("a\n", Err(1)),
    ("a 1 2\n", Err(1)),
    ("a 1 (x)\n", Err(1)),
    ("a 1_\n", Err(1)),
    ("a\r 1\n", Err(1)),
    // The first bad line counts, and blank ones do too.
    ("\n\na 1\nc 1\nd 1\n", Err(4)),
    ("a 1\n\nc", Err(3)),
];

/// What a text names, where there are three packages.
fn named(alloc: Global, repository: &Repository, text: &str) -> Option<Named> {
    if repository.len() != 3 {
        return None;
    }
    match read_list(alloc, repository, text.as_bytes()) {
        Ok(members) => {
            let named = [members.value(1), members.value(2), members.value(3)];
            drop(members);
            Some(Ok(named))
        }
        Err(ListError::Bad(line)) => Some(Err(line)),
        Err(ListError::NoMemory) => None,
    }
}

/// Whether a text names what its row says.
fn is_named(alloc: Global, row: &Row) -> bool {
    match repository(alloc, STANZAS) {
        Some(repository) => {
            let so = named(alloc, &repository, row.0) == Some(row.1);
            drop(repository);
            so
        }
        None => false,
    }
}

/// The first text that names something else.
fn wrong_set(alloc: Global, rows: &[Row]) -> Option<&'static str> {
    for row in rows {
        if !is_named(alloc, row) {
            return Some(row.0);
        }
    }
    None
}

#[test]
fn sets(rt: HostRuntime) {
    assert_eq!(rt; wrong_set(rt.alloc(), ROWS), None);
}

/// A text, and the number of the one package that it names.
type OneRow = (&'static str, Option<u32>);

const ONE_ROWS: &[OneRow] = &[
    ("a=1", Some(0)),
    ("a=2", Some(1)),
    ("b=1:0-3", Some(2)),
    // Equal versions.
    ("a=0:1", Some(0)),
    ("a=1-0", Some(0)),
    ("a=01", Some(0)),
    ("b=01:00-03", Some(2)),
    // A version that no package of the name has, of another name, or less or more than a version.
    ("a=3", None),
    ("b=0-3", None),
    ("b=1", None),
    ("a=", None),
    ("a=1_", None),
    ("a==1", None),
    ("a=1=1", None),
    // No package's name.
    ("c=1", None),
    ("A=1", None),
    ("=1", None),
    ("ab=1", None),
    // No equals sign, or none where it belongs.
    ("", None),
    ("=", None),
    ("a", None),
    ("a 1", None),
    ("a1=", None),
    // Nothing stands round the three.
    (" a=1", None),
    ("a =1", None),
    ("a= 1", None),
    ("a=1 ", None),
    ("a=1\n", None),
];

/// Whether a text names the package that its row says.
fn is_one(alloc: Global, row: &OneRow) -> bool {
    match repository(alloc, STANZAS) {
        Some(repository) => {
            let so = package_named(alloc, &repository, row.0.as_bytes()).ok() == Some(row.1);
            drop(repository);
            so
        }
        None => false,
    }
}

/// The first text that names another package.
fn wrong_package(alloc: Global, rows: &[OneRow]) -> Option<&'static str> {
    for row in rows {
        if !is_one(alloc, row) {
            return Some(row.0);
        }
    }
    None
}

#[test]
fn single_packages(rt: HostRuntime) {
    assert_eq!(rt; wrong_package(rt.alloc(), ONE_ROWS), None);
}

#[test]
fn laws_hold() {
    lists_are_exact();
    names_are_exact();
}
