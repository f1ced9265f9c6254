//! Worked rows: the clauses of small spaces, as lists of numbers in the DIMACS format.
use crate::spaces::{ESSENTIAL, MOVING, NEW_NAME, ONE_SOURCE, VIRTUAL, small_space};
use dist_base::{MAX_CLAUSES, MAX_LITERALS};
use dist_clause::PushError;
use dist_future::{
    Space, clauses_of, clauses_with_ends, one_limit_is_passed, space_clauses_are_one,
    space_clauses_are_there, space_clauses_go_on,
};
use dist_samples::{ClauseLimits, LIBRARY, has};
use std::alloc::Global;

/// The clauses of mode plain over an essential name, and then the one of mode essential.
const OF_BASE: &[&[i32]] = &[
    &[-4, -6],
    &[-4, -8],
    &[-6, -8],
    &[-2, -4],
    &[-5, 4],
    &[-2, -6],
    &[-7, 6],
    &[-2, -8],
    &[-9, 8],
    &[-3, -10],
    &[-11, 10],
    &[-3, -7],
    &[-3, -9],
    &[-1, -4],
    &[-1, -6],
    &[-1, -8],
    &[-1, -10],
    &[2, 5, 7, 9],
];

/// What a row shows, stanzas, a mode, and the clauses of their space.
type Clauses = (&'static str, &'static str, bool, &'static [&'static [i32]]);

const CLAUSES: &[Clauses] = &[
    ("a future of nothing", "", true, &[]),
    // Members move together, so a depends on its present version and b on a later one never hold together.
    (
        "members of one source",
        ONE_SOURCE,
        false,
        &[
            &[-5, -8],
            &[-5, -11],
            &[-8, -11],
            &[-2, -5],
            &[-6, 5],
            &[-3, -5],
            &[-7, 5],
            &[-2, -8],
            &[-9, 8],
            &[-3, -8],
            &[-10, 8],
            &[-2, -11],
            &[-12, 11],
            &[-3, -11],
            &[-13, 11],
            &[-4, -14],
            &[-15, 14],
            &[-4, 2],
            &[-4, 10, 13],
            &[-1, -5],
            &[-1, -8],
            &[-1, -11],
            &[-1, -14],
        ],
    ),
    (
        "a version too late",
        LIBRARY,
        false,
        &[
            &[-4, -6],
            &[-4, -8],
            &[-6, -8],
            &[-2, -4],
            &[-5, 4],
            &[-2, -6],
            &[-7, 6],
            &[-2, -8],
            &[-9, 8],
            &[-3, -10],
            &[-11, 10],
            &[-3, 2, 5],
            &[-1, -4],
            &[-1, -6],
            &[-1, -8],
            &[-1, -10],
        ],
    ),
    (
        "an entry is dropped",
        VIRTUAL,
        false,
        &[
            &[-2, -4],
            &[-5, 4],
            &[-3, -6],
            &[-7, 6],
            &[-8, 7],
            &[-2, 3, 7],
            &[-2, -3],
            &[-2, -8],
            &[-1, -4],
            &[-1, -6],
        ],
    ),
    (
        "a moving entry",
        MOVING,
        false,
        &[
            &[-4, -7],
            &[-4, -10],
            &[-7, -10],
            &[-2, -4],
            &[-5, 4],
            &[-6, 5],
            &[-2, -7],
            &[-8, 7],
            &[-9, 8],
            &[-2, -10],
            &[-11, 10],
            &[-12, 11],
            &[-3, -13],
            &[-14, 13],
            &[-3, 2, 5, 8, 11],
            &[-3, -9],
            &[-3, -12],
            &[-1, -4],
            &[-1, -7],
            &[-1, -10],
            &[-1, -13],
        ],
    ),
    ("an essential name", ESSENTIAL, true, OF_BASE),
    (
        "a new name",
        NEW_NAME,
        false,
        &[
            &[-2, -3],
            &[-4, 3],
            &[-5, -6],
            &[-5, -7],
            &[-6, -7],
            &[-2, 5],
            &[-1, -3],
            &[-1, -5],
            &[-1, -6],
            &[-1, -7],
        ],
    ),
    // The first two are in conflict by what they provide, and never with themselves; the last one rejects the second by its name,
    // and a package of a new name.
    (
        "conflicts of all kinds",
        "Package: e\nVersion: 1\nDepends: m\nConflicts: m\nProvides: m\n\nPackage: f\nVersion: 1\nConflicts: m\nProvides: m\n\nPackage: g\nVersion: 1\nDepends: z | e\nConflicts: z, f\n",
        false,
        &[
            &[-2, -5],
            &[-6, 5],
            &[-7, 6],
            &[-3, -8],
            &[-9, 8],
            &[-10, 9],
            &[-4, -11],
            &[-12, 11],
            &[-4, 2, 6, 13],
            &[-2, -3],
            &[-2, -10],
            &[-3, -4],
            &[-3, -7],
            &[-4, -9],
            &[-4, -13],
            &[-1, -5],
            &[-1, -8],
            &[-1, -11],
            &[-1, -13],
        ],
    ),
];

/// Whether a space has exactly these clauses.
fn has_clauses(alloc: Global, space: &Space, clauses: &[&[i32]]) -> Option<bool> {
    let set = clauses_of(alloc, space, MAX_CLAUSES, MAX_LITERALS).ok()?;
    let same = has(&set, clauses) && set.variables() == space.variables();
    drop(set);
    Some(same)
}

/// The same of the space of some stanzas.
fn is_made(alloc: Global, stanzas: &str, essential: bool, clauses: &[&[i32]]) -> Option<bool> {
    let space = small_space(alloc, stanzas, essential)?;
    let made = has_clauses(alloc, &space, clauses);
    drop(space);
    made
}

/// What the first row with other clauses shows.
fn wrong_clauses(alloc: Global, rows: &[Clauses]) -> Option<&'static str> {
    for (shows, stanzas, essential, clauses) in rows {
        if is_made(alloc, stanzas, *essential, clauses) != Some(true) {
            return Some(shows);
        }
    }
    None
}

#[test]
fn an_essential_name_has_no_clause_at_mode_plain(rt: HostRuntime) {
    let made = is_made(rt.alloc(), ESSENTIAL, false, &OF_BASE[..17]);
    assert!(rt; made == Some(true));
}

#[test]
fn the_clauses_of_small_spaces(rt: HostRuntime) {
    assert_eq!(rt; wrong_clauses(rt.alloc(), CLAUSES), None);
}

/// What a row shows, stanzas, a mode, how many clauses stand in groups 1 to 3, 1 to 5 and 1 to 6, and how many there are.
type Ends = (&'static str, &'static str, bool, (u32, u32, u32, u32));

const ENDS: &[Ends] = &[
    ("a future of nothing", "", true, (0, 0, 0, 0)),
    ("items alone", LIBRARY, false, (11, 12, 16, 16)),
    ("items of two members", ONE_SOURCE, false, (17, 19, 23, 23)),
    ("an item and conflicts", VIRTUAL, false, (5, 8, 10, 10)),
    ("a new name", NEW_NAME, false, (5, 6, 10, 10)),
    ("an essential name", ESSENTIAL, true, (11, 13, 17, 18)),
    (
        "no essential name at mode plain",
        ESSENTIAL,
        false,
        (11, 13, 17, 17),
    ),
];

/// Where the groups of a space's clauses end, and how many clauses there are.
fn ends_in(alloc: Global, space: &Space) -> Option<(u32, u32, u32, u32)> {
    let (set, ends) = clauses_with_ends(alloc, space, MAX_CLAUSES, MAX_LITERALS).ok()?;
    let clauses = set.len();
    drop(set);
    Some((ends.early, ends.today, ends.after, clauses))
}

/// The same of the space of some stanzas.
fn ends_of(alloc: Global, stanzas: &str, essential: bool) -> Option<(u32, u32, u32, u32)> {
    let space = small_space(alloc, stanzas, essential)?;
    let ends = ends_in(alloc, &space);
    drop(space);
    ends
}

/// What the first row with other ends shows.
fn wrong_ends(alloc: Global, rows: &[Ends]) -> Option<&'static str> {
    for (shows, stanzas, essential, ends) in rows {
        if ends_of(alloc, stanzas, *essential) != Some(*ends) {
            return Some(shows);
        }
    }
    None
}

#[test]
fn the_ends_of_groups(rt: HostRuntime) {
    assert_eq!(rt; wrong_ends(rt.alloc(), ENDS), None);
}

const LIMITS: &[ClauseLimits] = &[
    (15, 33, Some(PushError::TooManyClauses)),
    (16, 32, Some(PushError::TooManyLiterals)),
    (11, 22, Some(PushError::TooManyClauses)),
    (0, 0, Some(PushError::TooManyClauses)),
    (16, 33, None),
];

/// Whether a space has clauses within a row's limits, or is refused as it says.
fn is_limited(alloc: Global, space: &Space, row: &ClauseLimits) -> bool {
    let (clauses, literals, refusal) = *row;
    if clauses > MAX_CLAUSES || literals > MAX_LITERALS {
        return false;
    }
    match clauses_of(alloc, space, clauses, literals) {
        Ok(set) => {
            drop(set);
            refusal.is_none()
        }
        Err(error) => refusal == Some(error),
    }
}

/// The place of the first row within whose limits a space is answered otherwise.
fn wrong_limit(alloc: Global, space: &Space, rows: &[ClauseLimits]) -> Option<usize> {
    for place in 0..rows.len() {
        if !is_limited(alloc, space, &rows[place]) {
            return Some(place);
        }
    }
    None
}

/// The same of the space of some stanzas, or the number of rows if there is none.
fn wrong_limit_of(alloc: Global, stanzas: &str, rows: &[ClauseLimits]) -> Option<usize> {
    match small_space(alloc, stanzas, false) {
        Some(space) => {
            let wrong = wrong_limit(alloc, &space, rows);
            drop(space);
            wrong
        }
        None => Some(rows.len()),
    }
}

#[test]
fn the_limits_of_clauses(rt: HostRuntime) {
    assert_eq!(rt; wrong_limit_of(rt.alloc(), LIBRARY, LIMITS), None);
}

#[test]
fn the_laws_hold() {
    one_limit_is_passed();
    space_clauses_are_one();
    space_clauses_are_there();
    space_clauses_go_on();
}
