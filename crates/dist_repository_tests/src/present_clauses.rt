//! Repositories and their clauses of the present, as lists of numbers in the DIMACS format.
use dist_base::{MAX_CLAUSES, MAX_LITERALS, MAX_PACKAGES};
use dist_clause::PushError;
use dist_now::{
    clauses_of, health_is_of_sets, models_are_installations, present_clauses_are_one,
    present_clauses_are_there, present_clauses_go_on,
};
use dist_repo::Repository;
use dist_samples::{ClauseLimits, has, repository};
use std::alloc::Global;

const NEEDS_ENEMY: &str =
    "Package: a\nVersion: 1\nDepends: b\n\nPackage: b\nVersion: 1\nConflicts: a\n";

const VERSIONS: &str =
    "Package: a\nVersion: 2\n\nPackage: a\nVersion: 1\n\nPackage: b\nVersion: 1\nDepends: a (>> 1) | c\nConflicts: a (<< 2)\n";

const AGENTS: &str =
    "Package: exim4\nVersion: 4\nDepends: mail-agent\nConflicts: mail-agent\nProvides: mail-agent\n\nPackage: mutt\nVersion: 1\nDepends: mail-agent | mutt (<< 1), exim4 | exim4\n\nPackage: postfix\nVersion: 3\nConflicts: mail-agent\nProvides: mail-agent\n";

const BASE: &str =
    "Package: a\nVersion: 1\n\nPackage: b\nVersion: 1\nConflicts: base\n\nPackage: base\nVersion: 1\nEssential: yes\n\nPackage: base\nVersion: 2\nEssential: yes\n";

/// Stanzas and how many they are, a mode, and their clauses.
type Clauses = (&'static str, u32, bool, &'static [&'static [i32]]);

const CLAUSES: &[Clauses] = &[
    (NEEDS_ENEMY, 2, false, &[&[-1, 2], &[-1, -2]]),
    (VERSIONS, 3, false, &[&[-3, 2], &[-1, -2], &[-1, -3]]),
    (AGENTS, 3, false, &[&[-2, 1, 3], &[-2, 1], &[-1, -3]]),
    (BASE, 4, false, &[&[-2, -3], &[-2, -4], &[-3, -4]]),
    (BASE, 4, true, &[&[-2, -3], &[-2, -4], &[-3, -4], &[3, 4]]),
    ("", 0, true, &[]),
];

/// Whether a repository has exactly these clauses, over its packages.
fn has_clauses(
    alloc: Global,
    repository: &Repository,
    essential: bool,
    clauses: &[&[i32]],
) -> bool {
    if repository.len() > MAX_PACKAGES {
        return false;
    }
    match clauses_of(alloc, repository, essential, MAX_CLAUSES, MAX_LITERALS) {
        Ok(set) => {
            let made = set.variables() == repository.len() && has(&set, clauses);
            drop(set);
            made
        }
        Err(_) => false,
    }
}

/// Whether a row's stanzas are so many packages, and have exactly its clauses.
fn is_made(alloc: Global, row: &Clauses) -> bool {
    match repository(alloc, row.0) {
        Some(repository) => {
            let made = repository.len() == row.1 && has_clauses(alloc, &repository, row.2, row.3);
            drop(repository);
            made
        }
        None => false,
    }
}

/// The place of the first row with other clauses.
fn wrong_clauses(alloc: Global, rows: &[Clauses]) -> Option<usize> {
    for place in 0..rows.len() {
        if !is_made(alloc, &rows[place]) {
            return Some(place);
        }
    }
    None
}

#[test]
fn the_clauses_of_small_repositories(rt: HostRuntime) {
    assert_eq!(rt; wrong_clauses(rt.alloc(), CLAUSES), None);
}

const LIMITS: &[ClauseLimits] = &[
    (1, 4, Some(PushError::TooManyClauses)),
    (2, 3, Some(PushError::TooManyLiterals)),
    (1, 3, Some(PushError::TooManyClauses)),
    (0, 0, Some(PushError::TooManyClauses)),
    (1, 1, Some(PushError::TooManyLiterals)),
    (2, 4, None),
];

/// Whether a repository has clauses within a row's limits, or is refused as it says.
fn is_limited(alloc: Global, repository: &Repository, row: &ClauseLimits) -> bool {
    let (clauses, literals, refusal) = *row;
    if repository.len() > MAX_PACKAGES || clauses > MAX_CLAUSES || literals > MAX_LITERALS {
        return false;
    }
    match clauses_of(alloc, repository, false, clauses, literals) {
        Ok(set) => {
            drop(set);
            refusal.is_none()
        }
        Err(error) => refusal == Some(error),
    }
}

/// The place of the first row within whose limits a repository is answered otherwise.
fn wrong_limit(alloc: Global, repository: &Repository, rows: &[ClauseLimits]) -> Option<usize> {
    for place in 0..rows.len() {
        if !is_limited(alloc, repository, &rows[place]) {
            return Some(place);
        }
    }
    None
}

/// The same of the repository of some stanzas, and of none if it is not there.
fn wrong_limit_of(alloc: Global, stanzas: &str, rows: &[ClauseLimits]) -> Option<usize> {
    match repository(alloc, stanzas) {
        Some(repository) => {
            let wrong = wrong_limit(alloc, &repository, rows);
            drop(repository);
            wrong
        }
        None => Some(rows.len()),
    }
}

#[test]
fn the_limits_of_clauses(rt: HostRuntime) {
    assert_eq!(rt; wrong_limit_of(rt.alloc(), NEEDS_ENEMY, LIMITS), None);
}

#[test]
fn the_laws_hold() {
    present_clauses_are_there();
    present_clauses_are_one();
    present_clauses_go_on();
    models_are_installations();
    health_is_of_sets();
}
