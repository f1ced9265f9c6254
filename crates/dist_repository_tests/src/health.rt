//! Values from outside: the health of the first packages of small repositories.
use dist_clause::Assignment;
use dist_now::{Health, health, one_health};
use dist_repo::Repository;
use dist_samples::repository;
use std::alloc::Global;

const LONE: &str = "Package: a\nVersion: 1\n\nPackage: b\nVersion: 1\nEssential: yes\n";

const NEEDS_BOTH: &str =
    "Package: a\nVersion: 1\nDepends: a, b\n\nPackage: b\nVersion: 1\nEssential: yes\n";

const MEETS_THE_NARROWEST: &str =
    "Package: a\nVersion: 1\nDepends: q (>= 9) | q (>= 8) | q (>= 7) | q (>= 6) | q (>= 5) | q (>= 4) | q (>= 3) | q (>= 2) | q (>= 1)\nProvides: q (= 9)\n";

const MEETS_THE_WIDEST: &str =
    "Package: a\nVersion: 1\nDepends: q (>= 9) | q (>= 8) | q (>= 7) | q (>= 6) | q (>= 5) | q (>= 4) | q (>= 3) | q (>= 2) | q (>= 1)\nProvides: q (= 1)\n";

const MEETS_NONE: &str =
    "Package: a\nVersion: 1\nDepends: a, q (>= 9) | q (>= 8) | q (>= 7) | q (>= 6) | q (>= 5) | q (>= 4) | q (>= 3) | q (>= 2) | q (>= 1)\nProvides: q (= 0)\n";

const REJECTS_BY_THE_NARROWEST: &str =
    "Package: a\nVersion: 1\nConflicts: q (>= 9), q (>= 8), q (>= 7), q (>= 6), q (>= 5), q (>= 4), q (>= 3), q (>= 2), q (>= 1)\n\nPackage: b\nVersion: 1\nProvides: q (= 0)\n\nPackage: c\nVersion: 1\nProvides: q (= 0), q (= 9)\n";

const REJECTS_BY_NAME: &str =
    "Package: a\nVersion: 1\n\nPackage: b\nVersion: 1\nProvides: q, q (= 1)\n\nPackage: c\nVersion: 1\nConflicts: q:none, q, x, q, q, q, q, q, q, q\nProvides: q\n";

/// Stanzas, a mode, how many of the first packages are members, and their health.
type Row = (&'static str, bool, u32, Health);

const ONE_MEMBER: &[Row] = &[
    (LONE, false, 1, Health::Healthy),
    (NEEDS_BOTH, true, 1, Health::Unmet(0, 1)),
];

const LONG_LISTS: &[Row] = &[
    (MEETS_THE_NARROWEST, false, 1, Health::Healthy),
    (MEETS_THE_WIDEST, false, 1, Health::Healthy),
    (MEETS_NONE, false, 1, Health::Unmet(0, 1)),
    (REJECTS_BY_THE_NARROWEST, false, 2, Health::Healthy),
    (REJECTS_BY_THE_NARROWEST, false, 3, Health::Conflict(0, 2)),
    (REJECTS_BY_NAME, false, 3, Health::Conflict(1, 2)),
];

const ESSENTIAL_NAME: &[Row] = &[(LONE, true, 1, Health::EssentialMissing(1))];

/// The health of so many of the first packages, at a mode.
fn health_of_first(
    alloc: Global,
    repository: &Repository,
    essential: bool,
    count: u32,
) -> Option<Health> {
    if repository.len() < count || !repository.is_within_size() {
        return None;
    }
    let mut members = Assignment::new(alloc, repository.len()).ok()?;
    for number in 0..count {
        members.set(number + 1, true);
    }
    let health = health(repository, essential, &members);
    drop(members);
    Some(health)
}

/// The same of some stanzas.
fn health_of(alloc: Global, row: &Row) -> Option<Health> {
    let repository = repository(alloc, row.0)?;
    let health = health_of_first(alloc, &repository, row.1, row.2);
    drop(repository);
    health
}

/// The stanzas of the first row with another health.
fn wrong_health(alloc: Global, rows: &[Row]) -> Option<&'static str> {
    for row in rows {
        if health_of(alloc, row) != Some(row.3) {
            return Some(row.0);
        }
    }
    None
}

#[test]
fn one_member(rt: HostRuntime) {
    assert_eq!(rt; wrong_health(rt.alloc(), ONE_MEMBER), None);
}

#[test]
fn long_lists(rt: HostRuntime) {
    assert_eq!(rt; wrong_health(rt.alloc(), LONG_LISTS), None);
}

#[test]
fn essential_name(rt: HostRuntime) {
    assert_eq!(rt; wrong_health(rt.alloc(), ESSENTIAL_NAME), None);
}

#[test]
fn the_law_holds() {
    one_health();
}
