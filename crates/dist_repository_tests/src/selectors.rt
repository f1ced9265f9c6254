//! Clauses of the present with their selectors.
use dist_base::{MAX_CLAUSES, MAX_LITERALS, MAX_PACKAGES, MAX_VARIABLES};
use dist_clause::ClauseSet;
use dist_explain::{
    Relation, accepted_explanations_hold, explanations_have_one_answer, relations_of,
    selectors_explain, with_selectors,
};
use dist_now::{clauses_of, demands_tell_health, relations_have_clauses};
use dist_outside::{Limits, What, WorkError};
use dist_repo::Repository;
use dist_samples::{has, repository};
use std::alloc::Global;

/// Package a needs b, and b conflicts with a.
const NEEDS_ENEMY: &str =
    "Package: a\nVersion: 1\nDepends: b\n\nPackage: b\nVersion: 1\nConflicts: a\n";

/// The clauses of these stanzas at mode plain.
fn clauses(alloc: Global, stanzas: &str) -> Option<ClauseSet> {
    let repository = repository(alloc, stanzas)?;
    let clauses = if repository.len() > MAX_PACKAGES {
        None
    } else {
        clauses_of(alloc, &repository, false, MAX_CLAUSES, MAX_LITERALS).ok()
    };
    drop(repository);
    clauses
}

/// The most variables and literals, and the number that the clauses with selectors pass first, if they pass one.
type Row = (u32, u32, Option<What>);

const LIMITS: &[Row] = &[
    (4, 6, None),
    (MAX_VARIABLES, MAX_LITERALS, None),
    (3, 6, Some(What::Variables)),
    (4, 5, Some(What::Literals)),
    (3, 5, Some(What::Variables)),
];

/// Whether clauses have these with selectors within a row's limits, or pass its number.
fn is_so(alloc: Global, clauses: &ClauseSet, row: &Row, selected: &[&[i32]]) -> bool {
    let mut limits = Limits::stated();
    limits.variables = row.0;
    limits.literals = row.1;
    if limits.variables > MAX_VARIABLES || limits.literals > MAX_LITERALS {
        return false;
    }
    match with_selectors(alloc, clauses, &limits) {
        Ok(set) => {
            let holds = row.2.is_none() && set.variables() == 4 && has(&set, selected);
            drop(set);
            holds
        }
        Err(WorkError::TooLarge(passed)) => row.2 == Some(passed),
        Err(_) => false,
    }
}

/// The place of the first row for which clauses are answered otherwise.
fn wrong_limit(
    alloc: Global,
    clauses: &ClauseSet,
    rows: &[Row],
    selected: &[&[i32]],
) -> Option<usize> {
    for place in 0..rows.len() {
        if !is_so(alloc, clauses, &rows[place], selected) {
            return Some(place);
        }
    }
    None
}

/// The same of the clauses of some stanzas, or the number of rows if there are none.
fn wrong_limit_of(
    alloc: Global,
    stanzas: &str,
    rows: &[Row],
    selected: &[&[i32]],
) -> Option<usize> {
    match clauses(alloc, stanzas) {
        Some(clauses) => {
            let wrong = wrong_limit(alloc, &clauses, rows, selected);
            drop(clauses);
            wrong
        }
        None => Some(rows.len()),
    }
}

#[test]
fn each_clause_has_its_selector(rt: HostRuntime) {
    let selected: &[&[i32]] = &[&[-1, 2, -3], &[-1, -2, -4]];
    assert_eq!(rt;
        wrong_limit_of(rt.alloc(), NEEDS_ENEMY, LIMITS, selected),
        None
    );
}

/// Three packages, two of one name: the third needs the name and one that is not there, is met by itself in between, and is in
/// conflict with the name.
const NAMESAKES: &str =
    "Package: a\nVersion: 1\n\nPackage: a\nVersion: 2\n\nPackage: b\nVersion: 1\nDepends: a, b, c | d\nConflicts: a (<< 2)\n";

const RELATIONS: &[Relation] = &[
    Relation::Needs(2, 0),
    Relation::Needs(2, 2),
    Relation::Apart(0, 1),
    Relation::Apart(0, 2),
];

/// Whether a repository has these relations.
fn has_relations(alloc: Global, repository: &Repository, relations: &[Relation]) -> bool {
    match relations_of(alloc, repository) {
        Ok(list) => {
            let same = list.as_slice() == relations;
            drop(list);
            same
        }
        Err(_) => false,
    }
}

/// The same of the repository of some stanzas.
fn have_relations(alloc: Global, stanzas: &str, relations: &[Relation]) -> bool {
    match repository(alloc, stanzas) {
        Some(repository) => {
            let same = has_relations(alloc, &repository, relations);
            drop(repository);
            same
        }
        None => false,
    }
}

#[test]
fn relations_are_numbered(rt: HostRuntime) {
    assert!(rt; have_relations(rt.alloc(), NAMESAKES, RELATIONS));
}

#[test]
fn the_laws_hold() {
    demands_tell_health();
    relations_have_clauses();
    selectors_explain();
    accepted_explanations_hold();
    explanations_have_one_answer();
}
