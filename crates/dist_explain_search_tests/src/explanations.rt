//! Explanations that are searched for.
ghost use Rattle.std.specs.Prelude.{◌<◌, IsTrue, length};
ghost use Rattle.dist_outside.specs.Files.{IsNotWriting};
ghost use Rattle.dist_repo.specs.Size.{IsWithinSize};

use dist_explain::{ExplainVerdict, Explained, check_explained};
use dist_explain_search::explain;
use dist_outside::{Limits, MemoryDesk};
use dist_repo::Repository;
use dist_samples::{TWO, repository};
use std::alloc::Global;

/// Package a needs b, and b conflicts with a.
const NEEDS_ENEMY: &str =
    "Package: a\nVersion: 1\nDepends: b\n\nPackage: b\nVersion: 1\nConflicts: a\n";

/// Package z needs a besides.
const NEEDED: &str =
    "Package: a\nVersion: 1\nDepends: b\n\nPackage: b\nVersion: 1\nConflicts: a\n\nPackage: z\nVersion: 1\nDepends: a\n";

/// Package a needs b or d, which is missing, and conflicts with b; c needs both.
const CROWDED: &str =
    "Package: a\nVersion: 1\nDepends: b | d\nConflicts: b\n\nPackage: b\nVersion: 1\n\nPackage: c\nVersion: 1\nDepends: a, b\n";

/// What is told of package a: that it is installable, or the relations that are needed.
type Row = (&'static str, Option<&'static [u32]>);

const ROWS: &[Row] = &[
    (TWO, None),
    (NEEDS_ENEMY, Some(&[1, 2])),
    (NEEDED, Some(&[1, 3])),
    (CROWDED, Some(&[1, 4])),
];

/// Whether an answer is the expected one.
fn is_told(explained: &Explained, row: Option<&[u32]>) -> bool {
    match (explained, row) {
        (Explained::Installable, None) => true,
        (Explained::Broken(needed, undecided), Some(numbers)) => {
            needed.as_slice() == numbers && undecided.as_slice().is_empty()
        }
        _ => false,
    }
}

/// Whether a verdict accepts what is expected of the first package.
fn is_accepted(verdict: &ExplainVerdict, row: Option<&[u32]>) -> bool {
    match verdict {
        ExplainVerdict::Accepted(header, explained) => {
            header.limit == 10_000 && header.package == 0 && is_told(explained, row)
        }
        _ => false,
    }
}

/// Whether the file on a desk is accepted with what is expected.
fn is_checked(
    alloc: Global,
    repository: &Repository,
    desk: &mut MemoryDesk,
    row: Option<&[u32]>,
) -> bool
    requires size { IsWithinSize repository.now }
    requires desk { IsNotWriting desk.old.mode }
{
    match check_explained(alloc, repository, desk, "c", &Limits::stated()) {
        Ok(verdict) => {
            let accepted = is_accepted(&verdict, row);
            drop(verdict);
            accepted
        }
        Err(_) => false,
    }
}

/// Whether the file that is written on the first package tells what is expected.
fn is_written(
    alloc: Global,
    repository: &Repository,
    desk: &mut MemoryDesk,
    row: Option<&[u32]>,
) -> bool
    requires size { IsWithinSize repository.now }
    requires some { 0 < length repository.now.packages }
    requires desk { IsNotWriting desk.old.mode }
    ensures { IsTrue result → IsNotWriting desk.new.mode }
{
    match explain(alloc, repository, 0, desk, "c", 10_000, &Limits::stated()) {
        Ok(told) => {
            let so = is_told(&told, row);
            drop(told);
            so
        }
        Err(_) => false,
    }
}

/// Whether the file on the first package tells what is expected, and is accepted with that.
fn is_explained(alloc: Global, repository: &Repository, row: Option<&[u32]>) -> bool {
    if !repository.is_within_size() || repository.len() == 0 {
        return false;
    }
    match MemoryDesk::new(alloc, 7, &[0]) {
        Ok(mut desk) => {
            let so = is_written(alloc, repository, &mut desk, row)
                && is_checked(alloc, repository, &mut desk, row);
            drop(desk);
            so
        }
        Err(_) => false,
    }
}

/// The same over some stanzas.
fn is_so(alloc: Global, row: &Row) -> bool {
    match repository(alloc, row.0) {
        Some(repository) => {
            let so = is_explained(alloc, &repository, row.1);
            drop(repository);
            so
        }
        None => false,
    }
}

/// The first stanzas of which something else is told.
fn wrong_stanzas(alloc: Global, rows: &[Row]) -> Option<&'static str> {
    for row in rows {
        if !is_so(alloc, row) {
            return Some(row.0);
        }
    }
    None
}

#[test]
fn packages_are_explained(rt: HostRuntime) {
    assert_eq!(rt; wrong_stanzas(rt.alloc(), ROWS), None);
}
