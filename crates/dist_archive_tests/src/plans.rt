//! Worked rows: the plan of a later archive, which is then carried out, or the first package that does not fit.
use crate::archives::{Told, is_answered, space_of_stanzas, step_of};
use dist_archive::{Archive, Plan, ReachError, Step, reach, start};
use dist_repo::{Repository, same};
use dist_samples::repository;
use dist_space::Space;
use std::alloc::Global;

/// What a row shows, the stanzas of the repository and of the later archive, and the steps of the plan, or the number of the first
/// package that does not fit.
type Row = (
    &'static str,
    &'static str,
    &'static str,
    Result<&'static [Told], u32>,
);

/// Two packages of one source, and one that stands alone.
const PAIR: &str =
    "Package: a\nVersion: 1\nSource: s\n\nPackage: b\nVersion: 1\nSource: s\n\nPackage: p\nVersion: 1\n";

/// A library that provides its interface at its own version, and a menu.
const LIBRARY: &str = "Package: libx\nVersion: 1\nProvides: menu, abi (= 1)\n";

const PLANS: &[Row] = &[
    ("nothing changes", PAIR, PAIR, Ok(&[])),
    (
        "a library moves, a package goes, and one of a new name comes",
        "Package: libx\nVersion: 1\n\nPackage: p\nVersion: 1\nDepends: libx (<< 2)\n",
        "Package: foo\nVersion: 1\n\nPackage: libx\nVersion: 2\n",
        Ok(&[
            Told::Upload("libx", "2", "Package: libx\nVersion: 2\n"),
            Told::Removal("p"),
            Told::NewName("Package: foo\nVersion: 1\n"),
        ]),
    ),
    (
        "a package of the same version with another dependency",
        "Package: libx\nVersion: 1\n\nPackage: p\nVersion: 1\nDepends: libx (<< 2)\n",
        "Package: libx\nVersion: 1\nDepends: p\n",
        Err(0),
    ),
    (
        "the version is that of the first package, in its own text",
        PAIR,
        "Package: a\nVersion: 0:2\n\nPackage: b\nVersion: 2\n\nPackage: p\nVersion: 1\n",
        Ok(&[Told::Upload(
            "b",
            "0:2",
            "Package: a\nVersion: 0:2\n\nPackage: b\nVersion: 2\n",
        )]),
    ),
    (
        "a member that is not uploaded goes with the upload",
        PAIR,
        "Package: b\nVersion: 2\n\nPackage: p\nVersion: 1\n",
        Ok(&[Told::Upload("a", "2", "Package: b\nVersion: 2\n")]),
    ),
    (
        "a member goes, and nothing is uploaded",
        PAIR,
        "Package: b\nVersion: 1\nSource: s\n\nPackage: p\nVersion: 1\n",
        Ok(&[Told::Removal("a")]),
    ),
    (
        "all go, one by one",
        PAIR,
        "",
        Ok(&[Told::Removal("a"), Told::Removal("b"), Told::Removal("p")]),
    ),
    (
        "a cluster whose first member is kept and whose second is new",
        PAIR,
        "Package: a\nVersion: 1\nSource: s\n\nPackage: b\nVersion: 2\n",
        Err(1),
    ),
    (
        "a cluster whose first member is new and whose second is kept",
        PAIR,
        "Package: a\nVersion: 2\n\nPackage: b\nVersion: 1\nSource: s\n",
        Err(1),
    ),
    (
        "members at two later versions",
        PAIR,
        "Package: a\nVersion: 2\n\nPackage: b\nVersion: 3\n",
        Err(1),
    ),
    (
        "a version that is not above the top",
        PAIR,
        "Package: a\nVersion: 0:1\nSource: s (1)\n",
        Err(0),
    ),
    (
        "an entry that goes with its package, and one that stays at the old version",
        LIBRARY,
        "Package: libx\nVersion: 2\nProvides: abi (= 2)\n",
        Ok(&[Told::Upload(
            "libx",
            "2",
            "Package: libx\nVersion: 2\nProvides: abi (= 2)\n",
        )]),
    ),
    (
        "an entry that stays at the old version",
        LIBRARY,
        "Package: libx\nVersion: 2\nProvides: abi (= 1)\n",
        Err(0),
    ),
    (
        "a virtual name",
        LIBRARY,
        "Package: libx\nVersion: 1\nProvides: menu, abi (= 1)\n\nPackage: menu\nVersion: 1\n",
        Err(1),
    ),
    (
        "a new name that provides something",
        PAIR,
        "Package: n\nVersion: 1\n\nPackage: o\nVersion: 1\nProvides: x\n",
        Err(1),
    ),
    (
        "blocks are for no architecture",
        "Package: a\nVersion: 1\n",
        "Package: a\nVersion: 2\nArchitecture: amd64\n\nPackage: n\nVersion: 1\nArchitecture: all\n",
        Ok(&[
            Told::Upload("a", "2", "Package: a\nVersion: 2\n"),
            Told::NewName("Package: n\nVersion: 1\n"),
        ]),
    ),
];

/// Whether two blocks have the same packages.
fn are_same(block: &Repository, other: &Repository) -> bool {
    if block.len() != other.len() {
        return false;
    }
    for number in 0..block.len() {
        if number >= other.len() || !same(block.package(number), other.package(number)) {
            return false;
        }
    }
    true
}

/// Whether a step is this one, with a block for no architecture.
fn is_step(step: &Step, wanted: &Step) -> bool {
    match (step, wanted) {
        (Step::Upload(cluster, version, block), Step::Upload(number, text, packages)) => {
            cluster == number
                && version.text() == text.text()
                && block.architecture().is_none()
                && are_same(block, packages)
        }
        (Step::Removal(name), Step::Removal(other)) => name == other,
        (Step::NewName(block), Step::NewName(packages)) => {
            block.architecture().is_none() && are_same(block, packages)
        }
        _ => false,
    }
}

/// Whether a step is the one that is told.
fn is_told(alloc: Global, space: &Space, step: &Step, told: &Told) -> bool {
    match step_of(alloc, space, told) {
        Some(wanted) => {
            let same = is_step(step, &wanted);
            drop(wanted);
            same
        }
        None => false,
    }
}

/// Whether a plan has these steps.
fn is_plan(alloc: Global, space: &Space, plan: &Plan, told: &[Told]) -> bool {
    if plan.len() != told.len() {
        return false;
    }
    for place in 0..told.len() {
        if place >= plan.len() || !is_told(alloc, space, plan.get(place), &told[place]) {
            return false;
        }
    }
    true
}

/// Whether an archive holds exactly the packages of a repository.
fn holds_exactly(archive: &Archive, later: &Repository) -> bool {
    for number in 0..later.len() {
        let package = later.package(number);
        match archive.held(package.name.bytes()) {
            Some(held) => {
                if !same(held, package) {
                    return false;
                }
            }
            None => return false,
        }
    }
    archive.len() == later.len()
}

/// Whether an archive answers steps by taking them.
fn are_taken(alloc: Global, archive: &mut Archive, told: &[Told]) -> bool {
    for step in told {
        if !is_answered(alloc, archive, step, None) {
            return false;
        }
    }
    true
}

/// Whether steps lead from a repository to a later archive.
fn is_led(alloc: Global, space: Space, told: &[Told], later: &Repository) -> bool {
    match start(alloc, space) {
        Ok(mut archive) => {
            let led = are_taken(alloc, &mut archive, told) && holds_exactly(&archive, later);
            drop(archive);
            led
        }
        Err(_) => false,
    }
}

/// Whether a plan is wanted, and has the wanted steps.
fn is_wanted(alloc: Global, space: &Space, plan: &Plan, wanted: Result<&[Told], u32>) -> bool {
    match wanted {
        Ok(told) => is_plan(alloc, space, plan, told),
        Err(_) => false,
    }
}

/// Whether a later archive has this plan, or this is the first package that does not fit.
fn is_planned(
    alloc: Global,
    space: &Space,
    later: &Repository,
    wanted: Result<&[Told], u32>,
) -> bool {
    if !later.is_flat() {
        return false;
    }
    match reach(alloc, space, later) {
        Ok(plan) => {
            let planned = is_wanted(alloc, space, &plan, wanted);
            drop(plan);
            planned
        }
        Err(ReachError::NotAFuture(number)) => wanted.err() == Some(number),
        Err(ReachError::NoMemory) => false,
    }
}

/// Whether a row is answered so, whose later archive this is.
fn is_so_at(alloc: Global, row: &Row, later: &Repository) -> bool {
    let Some(space) = space_of_stanzas(alloc, row.1) else {
        return false;
    };
    let planned = is_planned(alloc, &space, later, row.3);
    match row.3 {
        Ok(told) if planned => is_led(alloc, space, told, later),
        _ => {
            drop(space);
            planned
        }
    }
}

/// Whether a row is answered so.
fn is_so(alloc: Global, row: &Row) -> bool {
    let Some(later) = repository(alloc, row.2) else {
        return false;
    };
    let so = is_so_at(alloc, row, &later);
    drop(later);
    so
}

/// What the first row shows that is answered otherwise.
fn wrong_plan(alloc: Global, rows: &[Row]) -> Option<&'static str> {
    for row in rows {
        if !is_so(alloc, row) {
            return Some(row.0);
        }
    }
    None
}

#[test]
fn later_archives_are_planned(rt: HostRuntime) {
    assert_eq!(rt; wrong_plan(rt.alloc(), PLANS), None);
}
