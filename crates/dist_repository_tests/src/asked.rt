//! Which atoms of the lists of some packages have to be asked.
use dist_asked::AskedPlaces;
use dist_repo::{Package, Repository};
use dist_samples::repository;
use std::alloc::Global;

const RISING: &str =
    "Package: p\nVersion: 1\nDepends: a (>= 1) | a (>= 2) | a (>= 3) | a (>= 4) | a (>= 5) | a (>= 6) | a (>= 7) | a (>= 8) | a (>= 9)\n";

const FALLING: &str =
    "Package: p\nVersion: 1\nConflicts: b (>> 9), b (>> 8), b (>> 7), b (>> 6), b (>> 5), b (>> 4), b (>> 3), b (>> 2), b (>> 1)\n";

const FROM_ABOVE: &str =
    "Package: p\nVersion: 1\nDepends: a (<= 1) | a (<= 2) | a (<= 3) | a (<= 4) | a (<= 5) | a (<= 6) | a (<= 7) | a (<= 8) | a (<= 9)\nConflicts: b (<< 9), b (<< 8), b (<< 7), b (<< 6), b (<< 5), b (<< 4), b (<< 3), b (<< 2), b (<< 1)\n";

const MIXED: &str =
    "Package: p\nVersion: 1\nDepends: a (<< 9) | a (<= 8) | a (<< 8) | a (= 7) | a (= 3) | a (= 7.0) | a:any | a (= 7) | b\nConflicts: a (= 1), a (= 2), a (= 1), a (= 3), a (= 2), a (= 4), a (= 3), a (= 5), a (= 4), a (= 6)\n";

const SHORT: &str =
    "Package: p\nVersion: 1\nDepends: a (>= 1) | a (>= 2) | a (>= 3) | a (>= 4) | a (>= 5) | a (>= 6) | a (>= 7) | a (>= 8)\n";

const OF_NINE_NAMES: &str = "Package: p\nVersion: 1\nConflicts: a, b, c, d, e, f, g, h, i\n";

const SEVERAL: &str =
    "Package: p\nVersion: 1\nDepends: c, a (>= 1) | a (>= 2) | a (>= 3) | a (>= 4) | a (>= 5) | a (>= 6) | a (>= 7) | a (>= 8) | a (>= 9), c, a (= 1) | a (= 1) | a (= 1) | a (= 1) | a (= 1) | a (= 1) | a (= 1) | a (= 2) | a (= 2)\nConflicts: d, d, d, d, d, d, d, d, d\n\nPackage: q\nVersion: 1\nDepends: c\n\nPackage: r\nVersion: 1\nDepends: a, a, a (<< 1) | a (<< 2) | a (<< 3) | a (<< 4) | a (<< 5) | a (<< 6) | a (<< 7) | b (<< 8) | b (<< 9)\nConflicts: d, d, d, d, d, e, e, e, e\n";

/// Stanzas, and for each package in turn how many places are asked of each of its items, and then of its conflicts.
type Row = (&'static str, &'static [usize]);

const LISTS: &[Row] = &[
    (RISING, &[1, 0]),
    (FALLING, &[1]),
    (FROM_ABOVE, &[1, 1]),
    (MIXED, &[7, 6]),
    (SHORT, &[8, 0]),
    (OF_NINE_NAMES, &[9]),
    (SEVERAL, &[1, 1, 1, 2, 1, 1, 0, 1, 1, 2, 2]),
];

/// How many of so many places are asked.
fn asked_among(asked: &AskedPlaces, count: usize) -> usize {
    let mut places: usize = 0;
    for place in 0..count {
        if asked.has(place) {
            places = places.saturating_add(1);
        }
    }
    places
}

/// Adds how many places are asked of the items of a package, and then of its conflicts.
fn add_asked(
    repository: &Repository,
    number: u32,
    package: &Package,
    counts: &mut Vec<usize>,
) -> Option<()> {
    for place in 0..package.depends.len() {
        let asked = repository.asked_alternatives(number, place);
        let count = asked_among(asked, package.depends.get(place).len());
        counts.push(count).ok()?;
    }
    let count = asked_among(repository.asked_conflicts(number), package.conflicts.len());
    counts.push(count).ok()?;
    Some(())
}

/// The same of all packages.
fn add_all(repository: &Repository, counts: &mut Vec<usize>) -> Option<()> {
    for number in 0..repository.len() {
        add_asked(repository, number, repository.package(number), counts)?;
    }
    Some(())
}

/// Whether so many places are asked of the packages of some stanzas.
fn are_asked(alloc: Global, row: &Row) -> Option<bool> {
    let repository = repository(alloc, row.0)?;
    let mut counts = Vec::new(alloc);
    let added = add_all(&repository, &mut counts);
    let are = added.is_some() && counts.as_slice() == row.1;
    drop(counts);
    drop(repository);
    Some(are)
}

/// The stanzas of the first row of whose lists other places are asked.
fn wrong_list(alloc: Global, rows: &[Row]) -> Option<&'static str> {
    for row in rows {
        if are_asked(alloc, row) != Some(true) {
            return Some(row.0);
        }
    }
    None
}

#[test]
fn few_places_of_long_lists_are_asked(rt: HostRuntime) {
    assert_eq!(rt; wrong_list(rt.alloc(), LISTS), None);
}
