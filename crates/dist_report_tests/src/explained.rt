//! The text of an explanation.
use dist_cert::Items;
use dist_explain::Explained;
use dist_repo::Repository;
use dist_report::explained_text;
use dist_samples::repository;
use std::alloc::Global;

/// Package a needs b or c, and b conflicts with a.
const NEEDS_ENEMY: &str =
    "Package: a\nVersion: 1\nDepends: b | c\n\nPackage: b\nVersion: 1\nConflicts: a\n";

/// Relations that are needed, those that are undecided, and the text on package a.
type Row = (&'static [u32], &'static [u32], &'static str);

const TEXTS: &[Row] = &[
    (
        &[1, 2],
        &[],
        "package a=1\nbroken\nneeds a=1: b | c\napart a=1 b=1\n",
    ),
    (
        &[2],
        &[1],
        "package a=1\nbroken\nperhaps needs a=1: b | c\napart a=1 b=1\n",
    ),
    (&[2], &[], "package a=1\nbroken\napart a=1 b=1\n"),
    // In whatever order the numbers stand.
    (
        &[2, 1, 2],
        &[],
        "package a=1\nbroken\nneeds a=1: b | c\napart a=1 b=1\n",
    ),
];

/// Whether the text of an answer on the first package is this one.
fn text_is(alloc: Global, repo: &Repository, explained: &Explained, expected: &str) -> bool {
    match explained_text(alloc, repo, 0, explained) {
        Ok(text) => {
            let same = text.as_slice() == expected.as_bytes();
            drop(text);
            same
        }
        Err(_) => false,
    }
}

/// What is told of a row.
fn explained_of(alloc: Global, row: &Row) -> Option<Explained> {
    match row.0.to_vec(alloc) {
        Ok(needed) => match row.1.to_vec(alloc) {
            Ok(undecided) => Some(Explained::Broken(
                Items::from_vec(needed),
                Items::from_vec(undecided),
            )),
            Err(_) => {
                drop(needed);
                None
            }
        },
        Err(_) => None,
    }
}

/// Whether the text of a row's relations over its repository is its text.
fn is_told(alloc: Global, repo: &Repository, row: &Row) -> bool {
    match explained_of(alloc, row) {
        Some(explained) => {
            let told = text_is(alloc, repo, &explained, row.2);
            drop(explained);
            told
        }
        None => false,
    }
}

/// Whether the text of a row's relations is its text.
fn is_so(alloc: Global, row: &Row) -> bool {
    match repository(alloc, NEEDS_ENEMY) {
        Some(repo) => {
            let so = is_told(alloc, &repo, row);
            drop(repo);
            so
        }
        None => false,
    }
}

/// The first text that is another one.
fn wrong_text(alloc: Global, rows: &[Row]) -> Option<&'static str> {
    for row in rows {
        if !is_so(alloc, row) {
            return Some(row.2);
        }
    }
    None
}

#[test]
fn relations_are_told(rt: HostRuntime) {
    assert_eq!(rt; wrong_text(rt.alloc(), TEXTS), None);
}

/// Whether a package that can be installed has its text.
fn installable_is(alloc: Global, expected: &str) -> bool {
    match repository(alloc, NEEDS_ENEMY) {
        Some(repo) => {
            let so = text_is(alloc, &repo, &Explained::Installable, expected);
            drop(repo);
            so
        }
        None => false,
    }
}

#[test]
fn an_installable_package_is_told(rt: HostRuntime) {
    assert!(rt; installable_is(rt.alloc(), "package a=1\ninstallable\n"));
}
