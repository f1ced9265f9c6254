//! Files of explanations.
ghost use Rattle.dist_outside.specs.Files.{IsNotWriting};
ghost use Rattle.dist_repo.specs.Size.{IsWithinSize};

use dist_cert::CertCause;
use dist_explain::{ExplainVerdict, Explained, check_explained};
use dist_outside::{Limits, MemoryDesk};
use dist_repo::Repository;
use dist_samples::{TWO, repository};
use std::alloc::Global;

/// Package a needs b, and b conflicts with a.
const NEEDS_ENEMY: &str =
    "Package: a\nVersion: 1\nDepends: b\n\nPackage: b\nVersion: 1\nConflicts: a\n";

/// Package a needs one of b and c, and one of d and e, and each of the first two is in conflict with both of the others.
const NEEDS_TWO: &str =
    "Package: a\nVersion: 1\nDepends: b | c, d | e\n\nPackage: b\nVersion: 1\nConflicts: d, e\n\nPackage: c\nVersion: 1\nConflicts: d, e\n\nPackage: d\nVersion: 1\n\nPackage: e\nVersion: 1\n";

/// What is answered of a file.
enum Said {
    Installable,
    Undecided,
    Broken(&'static [u32], &'static [u32]),
    Refused(u64, CertCause),
}

/// Stanzas, a file over them, and what is answered of package a.
type Row = (&'static str, &'static str, Said);

const FILES: &[Row] = &[
    (
        NEEDS_ENEMY,
        "distfuture-explain 1 10000 2 2 1\nq 1 3 4\nf 1 2\nq 1 4\nm 1 4\nq 1 3\nm 1 2 3\ne\n",
        Said::Broken(&[1, 2], &[]),
    ),
    (
        NEEDS_ENEMY,
        "distfuture-explain 1 10000 2 2 1\nq 1 3 4\nf 1 2\nq 1 4\nm 1 4\nq 1 3\ne\n",
        Said::Refused(7, CertCause::Incomplete),
    ),
    (
        NEEDS_ENEMY,
        "distfuture-explain 1 10000 2 2 1\nm 1 4\nm 1 2 3\nq 4 3 1\nf 1 2\ne\n",
        Said::Refused(6, CertCause::Incomplete),
    ),
    (
        NEEDS_ENEMY,
        "distfuture-explain 1 10000 2 2 1\nq 1 3 4 -2\nf 1\nm 1 4\ne\n",
        Said::Refused(5, CertCause::Incomplete),
    ),
    (
        NEEDS_ENEMY,
        "distfuture-explain 1 10000 2 2 1\nm 1 3 4\ne\n",
        Said::Refused(2, CertCause::NotAnInstallation),
    ),
    (
        NEEDS_ENEMY,
        "distfuture-explain 1 10000 2 2 1\nx 1\ne\n",
        Said::Refused(2, CertCause::WrongClaim),
    ),
    (
        NEEDS_ENEMY,
        "distfuture-explain 1 10000 2 2 3\ne\n",
        Said::Refused(1, CertCause::BadHeader),
    ),
    (
        TWO,
        "distfuture-explain 1 10000 2 1 1\nm 1 2 3\ne\n",
        Said::Installable,
    ),
    (
        TWO,
        "distfuture-explain 1 10000 2 2 1\nm 1 2 3\ne\n",
        Said::Refused(1, CertCause::BadHeader),
    ),
    // The question of all relations is left undecided.
    (
        NEEDS_TWO,
        "distfuture-explain 1 1 5 6 1\nq 1 6 7 8 9 10 11\nd -2 -1 -7 -8 -9 0 3 4 2\nu\ne\n",
        Said::Undecided,
    ),
    // The last relation is left undecided, then shown to be needed.
    (
        NEEDS_TWO,
        "distfuture-explain 1 1 5 6 1\nq 1 6 7 8 9 10 11\nd -2 -1 -7 -8 -9 -11 0 3 4 2\nf 7 1 5 6 2\nm 1 4 7 8 9 10 11\nm 1 2 6 8 9 10 11\nm 1 2 4 6 7 9 10 11\nm 1 2 5 6 7 8 10 11\nm 1 3 4 6 7 8 9 11\nq 1 6 7 8 9 10\nd -2 -1 -7 -8 -9 0 3 4 2\nu\ne\n",
        Said::Broken(&[1, 2, 3, 4, 5], &[6]),
    ),
    (
        NEEDS_TWO,
        "distfuture-explain 1 1 5 6 1\nq 1 6 7 8 9 10 11\nd -2 -1 -7 -8 -9 -11 0 3 4 2\nf 7 1 5 6 2\nm 1 4 7 8 9 10 11\nm 1 2 6 8 9 10 11\nm 1 2 4 6 7 9 10 11\nm 1 2 5 6 7 8 10 11\nm 1 3 4 6 7 8 9 11\nq 1 6 7 8 9 10\nd -2 -1 -7 -8 -9 0 3 4 2\nu\nm 1 3 5 6 7 8 9 10\ne\n",
        Said::Broken(&[1, 2, 3, 4, 5, 6], &[]),
    ),
];

/// Whether a verdict is the expected one.
fn is_said(verdict: &ExplainVerdict, said: &Said) -> bool {
    match (verdict, said) {
        (ExplainVerdict::Accepted(header, Explained::Installable), Said::Installable) => {
            header.package == 0
        }
        (ExplainVerdict::Accepted(header, Explained::Undecided), Said::Undecided) => {
            header.limit == 1
        }
        (
            ExplainVerdict::Accepted(_, Explained::Broken(needed, undecided)),
            Said::Broken(more, left),
        ) => { needed.as_slice() == *more && undecided.as_slice() == *left }
        (ExplainVerdict::Refused(fault), Said::Refused(line, cause)) => {
            fault.line == *line && fault.cause == *cause
        }
        _ => false,
    }
}

/// Whether what is answered of a file on a desk is said of it.
fn is_judged(alloc: Global, repository: &Repository, desk: &mut MemoryDesk, row: &Row) -> bool
    requires size { IsWithinSize repository.now }
    requires desk { IsNotWriting desk.old.mode }
{
    if desk.put("c", row.1.as_bytes()).is_err() {
        return false;
    }
    match check_explained(alloc, repository, desk, "c", &Limits::stated()) {
        Ok(verdict) => {
            let so = is_said(&verdict, &row.2);
            drop(verdict);
            so
        }
        Err(_) => false,
    }
}

/// The same over a repository.
fn is_judged_on(alloc: Global, repository: &Repository, row: &Row) -> bool {
    if !repository.is_within_size() {
        return false;
    }
    match MemoryDesk::new(alloc, 7, &[0]) {
        Ok(mut desk) => {
            let so = is_judged(alloc, repository, &mut desk, row);
            drop(desk);
            so
        }
        Err(_) => false,
    }
}

/// The same over the stanzas of the row.
fn is_so(alloc: Global, row: &Row) -> bool {
    match repository(alloc, row.0) {
        Some(repository) => {
            let so = is_judged_on(alloc, &repository, row);
            drop(repository);
            so
        }
        None => false,
    }
}

/// The first file of which something else is answered.
fn wrong_file(alloc: Global, rows: &[Row]) -> Option<&'static str> {
    for row in rows {
        if !is_so(alloc, row) {
            return Some(row.1);
        }
    }
    None
}

#[test]
fn files_are_judged(rt: HostRuntime) {
    assert_eq!(rt; wrong_file(rt.alloc(), FILES), None);
}
