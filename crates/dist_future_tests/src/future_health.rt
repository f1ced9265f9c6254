//! Worked rows: the faults of assignments, and which packages have a model under which classes, with all assignments tried.
use crate::assignments::{are_models, have_health};
use crate::spaces::{ESSENTIAL, MOVING, NEW_NAME, ONE_SOURCE, VIRTUAL, small_space};
use dist_future::Meaning::{self, At, Fresh, Now, Present};
use dist_future::{
    FutureHealth, clusters_and_classes_are_numbered, covered_pairs_have_models,
    each_model_is_a_future, future_clauses_are_two_parts, futures_meet_their_clauses,
    healthy_are_models, healthy_stand_for_futures, models_stand_for_futures,
    models_tell_of_packages, one_future_health,
};
use dist_samples::LIBRARY;
use std::alloc::Global;

/// What a row shows, stanzas, a mode, and the health of assignments, each given by its true variables.
type Assignments = (
    &'static str,
    &'static str,
    bool,
    &'static [(&'static [u32], FutureHealth)],
);

const ASSIGNMENTS: &[Assignments] = &[
    (
        "nothing installed is healthy",
        "Package: a\nVersion: 1\nDepends: b\n",
        false,
        &[(&[], FutureHealth::Healthy)],
    ),
    (
        "classes of a cluster and an item",
        LIBRARY,
        false,
        &[
            (&[1, 2, 3], FutureHealth::Healthy),
            (&[3], FutureHealth::Unmet(3, 0)),
            (&[2, 3, 4], FutureHealth::NotAFuture(2, 4)),
            (&[2, 5], FutureHealth::NotAFuture(5, 4)),
            (&[4, 5, 6, 7], FutureHealth::NotAFuture(4, 6)),
            (&[1, 3, 4], FutureHealth::NotAFuture(1, 4)),
            (&[3, 4, 5], FutureHealth::Healthy),
            (&[3, 6, 7], FutureHealth::Unmet(3, 0)),
        ],
    ),
    (
        "kept entries and conflicts",
        VIRTUAL,
        false,
        &[
            (&[2, 3], FutureHealth::Conflict(2, 3)),
            (&[2, 6, 7], FutureHealth::Healthy),
            (&[2, 6, 7, 8], FutureHealth::Conflict(2, 8)),
            (&[2, 6, 8], FutureHealth::NotAFuture(8, 7)),
            (&[2, 6], FutureHealth::Unmet(2, 0)),
        ],
    ),
    (
        "new names",
        "Package: p\nVersion: 1\nDepends: n (>= 2)\n",
        false,
        &[
            (&[2], FutureHealth::Unmet(2, 0)),
            (&[2, 5], FutureHealth::Unmet(2, 0)),
            (&[2, 6], FutureHealth::Healthy),
            (&[5, 6], FutureHealth::NotAFuture(5, 6)),
            (&[1, 6], FutureHealth::NotAFuture(1, 6)),
        ],
    ),
    (
        "an item and conflicts of more than eight atoms",
        "Package: l\nVersion: 1\n\nPackage: p\nVersion: 1\nDepends: l (>= 9) | l (>= 8) | l (>= 7) | l (>= 6) | l (>= 5) | l (>= 4) | l (>= 3) | l (>= 2) | l (>= 1)\nConflicts: q (>= 9), q (>= 8), q (>= 7), q (>= 6), q (>= 5), q (>= 4), q (>= 3), q (>= 2), q (>= 1)\n\nPackage: q\nVersion: 1\n",
        false,
        &[
            (&[1, 2, 3], FutureHealth::Healthy),
            (&[3], FutureHealth::Unmet(3, 0)),
            (&[2, 3, 4], FutureHealth::Conflict(3, 4)),
        ],
    ),
    (
        "essential names",
        ESSENTIAL,
        true,
        &[
            (&[3], FutureHealth::EssentialMissing(0)),
            (&[2, 3], FutureHealth::Healthy),
            (&[3, 4, 5], FutureHealth::Healthy),
            (&[3, 6, 7], FutureHealth::Conflict(3, 7)),
        ],
    ),
];

/// Whether the assignments of a row have their health.
fn has_health(alloc: Global, row: &Assignments) -> Option<bool> {
    let space = small_space(alloc, row.1, row.2)?;
    let told = have_health(alloc, &space, row.3);
    drop(space);
    told
}

/// What the first row with an assignment of another health shows.
fn wrong_health(alloc: Global, rows: &[Assignments]) -> Option<&'static str> {
    for row in rows {
        if has_health(alloc, row) != Some(true) {
            return Some(row.0);
        }
    }
    None
}

#[test]
fn assignments_have_their_health(rt: HostRuntime) {
    assert_eq!(rt; wrong_health(rt.alloc(), ASSIGNMENTS), None);
}

/// What a row shows, stanzas, a mode, and meanings, each time with whether some healthy assignment makes them true.
type Models = (
    &'static str,
    &'static str,
    bool,
    &'static [(&'static [Meaning], bool)],
);

const MODELS: &[Models] = &[
    (
        "later essential versions break what excludes them",
        ESSENTIAL,
        true,
        &[
            (&[Now, Present(1)], true),
            (&[Present(1), At(0, 0)], true),
            (&[Present(1), At(0, 1)], false),
            (&[Present(1), At(0, 2)], false),
            (&[Present(0), At(1, 0)], true),
        ],
    ),
    (
        "at mode plain they break nothing",
        ESSENTIAL,
        false,
        &[
            (&[Now, Present(1)], true),
            (&[Present(1), At(0, 0)], true),
            (&[Present(1), At(0, 1)], true),
            (&[Present(1), At(0, 2)], true),
        ],
    ),
    (
        "a later library breaks what needs an earlier one",
        LIBRARY,
        false,
        &[
            (&[Now, Present(0)], true),
            (&[Now, Present(1)], true),
            (&[Present(1), At(0, 0)], true),
            (&[Present(1), At(0, 1)], false),
            (&[Present(1), At(0, 2)], false),
            (&[Present(0), At(1, 0)], true),
        ],
    ),
    // Other clusters may move too: a new version of q need not depend on libx.
    (
        "it does not break what needs that",
        "Package: libx\nVersion: 1\n\nPackage: p\nVersion: 1\nDepends: q\n\nPackage: q\nVersion: 1\nDepends: libx (<< 2)\n",
        false,
        &[
            (&[Now, Present(1), Present(2)], true),
            (&[Present(2), At(0, 0)], true),
            (&[Present(2), At(0, 1)], false),
            (&[Present(2), At(0, 2)], false),
            (&[Present(1), At(0, 1)], true),
            (&[Present(1), At(0, 2)], true),
            (&[Present(1), At(2, 0)], true),
            (&[Present(2), At(1, 0)], true),
        ],
    ),
    (
        "members of a cluster move together",
        ONE_SOURCE,
        false,
        &[
            (&[Present(0)], true),
            (&[Present(1)], true),
            (&[Present(2)], false),
        ],
    ),
    (
        "clusters move singly",
        "Package: a\nVersion: 1\n\nPackage: b\nVersion: 1\n\nPackage: p\nVersion: 1\nDepends: a (= 1), b (>= 2)\n",
        false,
        &[
            (&[Present(0)], true),
            (&[Present(1)], true),
            (&[Present(2)], true),
        ],
    ),
    (
        "no version goes down",
        "Package: foo\nVersion: 1\n\nPackage: p\nVersion: 1\nDepends: foo (<< 0.5)\n",
        false,
        &[(&[Present(0)], true), (&[Present(1)], false)],
    ),
    (
        "a new name comes at any version",
        NEW_NAME,
        false,
        &[
            (&[Present(0)], true),
            (&[Present(0), Fresh(0, 0)], true),
            (&[Present(0), Fresh(0, 1)], false),
            (&[Present(0), Fresh(0, 2)], false),
            (&[Present(0), Now], false),
        ],
    ),
    (
        "a moving entry leaves its version",
        "Package: libx\nVersion: 1\nProvides: abi (= 1)\n\nPackage: p\nVersion: 1\nDepends: abi (= 1)\n",
        false,
        &[
            (&[Now, Present(1)], true),
            (&[Present(1), At(0, 0)], false),
            (&[Present(0), At(1, 0)], true),
        ],
    ),
    (
        "a new version drops an entry",
        VIRTUAL,
        false,
        &[
            (&[Present(0)], true),
            (&[Present(1)], true),
            (&[Present(0), Now], false),
        ],
    ),
    (
        "a new version drops a moving entry",
        MOVING,
        false,
        &[
            (&[Now, Present(1)], true),
            (&[Present(1), At(0, 0)], true),
            (&[Present(1), At(0, 1)], true),
            (&[Present(1), At(0, 2)], true),
        ],
    ),
    (
        "qualifiers and many new names",
        "Package: python3\nVersion: 1\nSource: s\nDepends: minimal (= 1), python:any (>= 1~), library (= 1)\nProvides: profiler\n",
        false,
        &[(&[Present(0)], true), (&[Present(0), Now], false)],
    ),
];

/// Whether the meanings of a row have models, as told.
fn has_models(alloc: Global, row: &Models) -> Option<bool> {
    let space = small_space(alloc, row.1, row.2)?;
    let told = are_models(alloc, &space, row.3);
    drop(space);
    told
}

/// What the first row whose meanings are told otherwise shows.
fn wrong_models(alloc: Global, rows: &[Models]) -> Option<&'static str> {
    for row in rows {
        if has_models(alloc, row) != Some(true) {
            return Some(row.0);
        }
    }
    None
}

#[test]
fn packages_have_models(rt: HostRuntime) {
    assert_eq!(rt; wrong_models(rt.alloc(), MODELS), None);
}

#[test]
fn the_laws_hold() {
    clusters_and_classes_are_numbered();
    covered_pairs_have_models();
    each_model_is_a_future();
    future_clauses_are_two_parts();
    futures_meet_their_clauses();
    healthy_are_models();
    healthy_stand_for_futures();
    models_stand_for_futures();
    models_tell_of_packages();
    one_future_health();
}
