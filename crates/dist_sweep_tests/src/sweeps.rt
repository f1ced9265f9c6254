//! Sweeps over small repositories, with the claims that a reader of the rules expects.
ghost use Rattle.dist_outside.specs.Files.{IsNotWriting};
ghost use Rattle.dist_subject.specs.Limited.{AreStated};

use dist_budget::{budgets_are_enough, explanation_budgets_are_enough, repair_budgets_are_enough};
use dist_cert::Claims;
use dist_outside::{Limits, MemoryDesk, What, WorkError};
use dist_repo::Repository;
use dist_samples::{Said, TWO, is_held, limited, repository};
use dist_strong::strong;
use dist_verdicts::{are_said, is_accepted};
use std::alloc::Global;

/// No strong dependency.
const NONE: Said = Said::Strong(&[], &[]);

/// The first line over no packages.
const FIRST: &str = "distfuture-certificate 1 strong plain 10000 0 0 0\n";

/// Package a without relations.
const ONE: &str = "Package: a\nVersion: 1\n";

/// Package a depends on b or c, and both depend on d.
const DIAMOND: &str =
    "Package: a\nVersion: 1\nDepends: b | c\n\nPackage: b\nVersion: 1\nDepends: d\n\nPackage: c\nVersion: 1\nDepends: d\n\nPackage: d\nVersion: 1\n";

/// Package a depends on b, which conflicts with it.
const APART: &str = "Package: a\nVersion: 1\nDepends: b\n\nPackage: b\nVersion: 1\nConflicts: a\n";

/// Two versions of a, either of which b takes.
const VERSIONS: &str =
    "Package: a\nVersion: 1\n\nPackage: a\nVersion: 2\n\nPackage: b\nVersion: 1\nDepends: a\n";

/// Package p needs one of a and b, and one of c and d, and each of the first two conflicts with the other two.
const CROSSED: &str =
    "Package: a\nVersion: 1\nConflicts: c, d\n\nPackage: b\nVersion: 1\nConflicts: c, d\n\nPackage: c\nVersion: 1\n\nPackage: d\nVersion: 1\n\nPackage: p\nVersion: 1\nDepends: a | b, c | d\n";

/// Packages of four names, of each of which there is one at most, and p, which needs five of them.
const PIGEONS: &str =
    "Package: a1\nVersion: 1\nConflicts: a\nProvides: a\n\nPackage: a2\nVersion: 1\nConflicts: a\nProvides: a\n\nPackage: a3\nVersion: 1\nConflicts: a\nProvides: a\n\nPackage: a4\nVersion: 1\nConflicts: a\nProvides: a\n\nPackage: a5\nVersion: 1\nConflicts: a\nProvides: a\n\nPackage: b1\nVersion: 1\nConflicts: b\nProvides: b\n\nPackage: b2\nVersion: 1\nConflicts: b\nProvides: b\n\nPackage: b3\nVersion: 1\nConflicts: b\nProvides: b\n\nPackage: b4\nVersion: 1\nConflicts: b\nProvides: b\n\nPackage: b5\nVersion: 1\nConflicts: b\nProvides: b\n\nPackage: c1\nVersion: 1\nConflicts: c\nProvides: c\n\nPackage: c2\nVersion: 1\nConflicts: c\nProvides: c\n\nPackage: c3\nVersion: 1\nConflicts: c\nProvides: c\n\nPackage: c4\nVersion: 1\nConflicts: c\nProvides: c\n\nPackage: c5\nVersion: 1\nConflicts: c\nProvides: c\n\nPackage: d1\nVersion: 1\nConflicts: d\nProvides: d\n\nPackage: d2\nVersion: 1\nConflicts: d\nProvides: d\n\nPackage: d3\nVersion: 1\nConflicts: d\nProvides: d\n\nPackage: d4\nVersion: 1\nConflicts: d\nProvides: d\n\nPackage: d5\nVersion: 1\nConflicts: d\nProvides: d\n\nPackage: p\nVersion: 1\nDepends: a1|b1|c1|d1, a2|b2|c2|d2, a3|b3|c3|d3, a4|b4|c4|d4, a5|b5|c5|d5\n";

/// Package b conflicts with base, which is essential.
const BASE: &str =
    "Package: a\nVersion: 1\n\nPackage: b\nVersion: 1\nConflicts: base\n\nPackage: base\nVersion: 1\nEssential: yes\n";

/// A second version of base besides, which is not essential.
const BASES: &str =
    "Package: a\nVersion: 1\n\nPackage: b\nVersion: 1\nConflicts: base\n\nPackage: base\nVersion: 1\nEssential: yes\n\nPackage: base\nVersion: 2\n";

/// Stanzas, a mode, a limit, and the claims of a sweep.
type Claimed = (&'static str, bool, u32, &'static [Said]);

/// A claim on the last package of the diamond alone.
const ON_LAST: Said = Said::Strong(&[3], &[]);

/// An uninstallable package.
const LOST: Said = Said::Uninstallable;

/// What is claimed of the packages of four names, and of p where that is undecided.
const CROWDED: [Said; 21] = [
    NONE,
    NONE,
    NONE,
    NONE,
    NONE,
    NONE,
    NONE,
    NONE,
    NONE,
    NONE,
    NONE,
    NONE,
    NONE,
    NONE,
    NONE,
    NONE,
    NONE,
    NONE,
    NONE,
    NONE,
    Said::Unknown,
];

const CLAIMED: &[Claimed] = &[
    ("", false, 10000, &[]),
    (ONE, false, 10000, &[NONE]),
    (DIAMOND, false, 10000, &[ON_LAST, ON_LAST, ON_LAST, NONE]),
    (APART, false, 10000, &[LOST, NONE]),
    (VERSIONS, false, 10000, &[NONE, NONE, NONE]),
    // After one line, or two, the question of the last package is undecided.
    (PIGEONS, false, 1, &CROWDED),
    (PIGEONS, false, 2, &CROWDED),
    // With lines enough it is uninstallable.
    (
        PIGEONS,
        false,
        10000,
        &[
            NONE, NONE, NONE, NONE, NONE, NONE, NONE, NONE, NONE, NONE, NONE, NONE, NONE, NONE,
            NONE, NONE, NONE, NONE, NONE, NONE, LOST,
        ],
    ),
    // Essential names are installed at mode essential.
    (BASE, true, 10000, &[Said::Strong(&[2], &[]), LOST, NONE]),
    (BASE, false, 10000, &[NONE, NONE, NONE]),
    (BASES, true, 10000, &[NONE, LOST, NONE, NONE]),
];

/// A sweep over a repository, to the file c.
fn swept_over(
    alloc: Global,
    repository: &Repository,
    asked: (bool, u32),
    limits: &Limits,
    desk: &mut MemoryDesk,
) -> Option<Result<Claims, WorkError>>
    requires limits { AreStated limits.now }
    requires idle { IsNotWriting desk.old.mode }
{
    let (essential, limit) = asked;
    if !repository.is_within_size() || limit < 1 || limit > 1_000_000 {
        return None;
    }
    Some(strong(alloc, repository, essential, desk, "c", limit, limits))
}

/// A sweep over some stanzas, to the file c, at a mode and with a limit.
fn swept(
    alloc: Global,
    stanzas: &str,
    asked: (bool, u32),
    limits: &Limits,
    desk: &mut MemoryDesk,
) -> Option<Result<Claims, WorkError>>
    requires limits { AreStated limits.now }
    requires idle { IsNotWriting desk.old.mode }
{
    let repository = repository(alloc, stanzas)?;
    let swept = swept_over(alloc, &repository, asked, limits, desk);
    drop(repository);
    swept
}

/// Why a sweep over some stanzas ends without claims, if it does; nothing if it is not asked.
fn end_of(
    alloc: Global,
    stanzas: &str,
    asked: (bool, u32),
    limits: &Limits,
    desk: &mut MemoryDesk,
) -> Option<Option<WorkError>>
    requires limits { AreStated limits.now }
    requires idle { IsNotWriting desk.old.mode }
{
    match swept(alloc, stanzas, asked, limits, desk)? {
        Ok(claims) => {
            drop(claims);
            Some(None)
        }
        Err(error) => Some(Some(error)),
    }
}

/// Whether the sweep of a row on a desk ends with its claims, within the stated limits, and its certificate is accepted.
fn are_claimed_on(alloc: Global, desk: &mut MemoryDesk, row: &Claimed) -> bool
    requires { IsNotWriting desk.old.mode }
{
    match swept(alloc, row.0, (row.1, row.2), &Limits::stated(), desk) {
        Some(Ok(claims)) => {
            let said = are_said(&claims, row.3);
            drop(claims);
            said && has_accepted(alloc, desk, row.0)
        }
        _ => false,
    }
}

/// Whether the certificate on a desk is accepted over some stanzas.
fn has_accepted(alloc: Global, desk: &MemoryDesk, stanzas: &str) -> bool {
    match desk.get("c") {
        Some(text) => is_accepted(alloc, stanzas, text),
        None => false,
    }
}

/// The same on a desk of its own.
fn are_claimed(alloc: Global, row: &Claimed) -> bool {
    match MemoryDesk::new(alloc, 4096, &[]) {
        Ok(mut desk) => {
            let claimed = are_claimed_on(alloc, &mut desk, row);
            drop(desk);
            claimed
        }
        Err(_) => false,
    }
}

/// The place of the first row with other claims.
fn wrong_claims(alloc: Global, rows: &[Claimed]) -> Option<usize> {
    for place in 0..rows.len() {
        if !are_claimed(alloc, &rows[place]) {
            return Some(place);
        }
    }
    None
}

#[test]
fn strong_dependencies_are_those_of_all_installations(rt: HostRuntime) {
    assert_eq!(rt; wrong_claims(rt.alloc(), CLAIMED), None);
}

/// Stanzas, a mode, the certificate of a sweep or its front, and whether it is whole.
type Written = (&'static str, bool, &'static str, bool);

const WRITTEN: &[Written] = &[
    (
        "",
        false,
        "distfuture-certificate 1 strong plain 10000 0 0 0\ne\n",
        true,
    ),
    (
        TWO,
        false,
        "distfuture-certificate 1 strong plain 10000 2 2 1\nq 1\nm 1 2\nq 1 -2\nf 1\ns 1 1 0 2 0\nq 2\nm 2\ns 2 1 2 0 0\ne\n",
        true,
    ),
    (
        BASE,
        true,
        "distfuture-certificate 1 strong essential 10000 3 3 2\n",
        false,
    ),
];

/// Whether a file is a row's text, or begins with it where that is not whole.
fn is_text(file: Option<&[u8]>, row: &Written) -> bool {
    match file {
        Some(file) => {
            (file.len() == row.2.len() || !row.3) && file.starts_with(row.2.as_bytes())
        }
        None => false,
    }
}

/// Whether the certificate of a row is its text, or begins with it where that is not whole.
fn is_written(alloc: Global, row: &Written) -> bool {
    match MemoryDesk::new(alloc, 7, &[]) {
        Ok(mut desk) => {
            let asked = (row.1, 10000);
            let end = end_of(alloc, row.0, asked, &Limits::stated(), &mut desk);
            let written = is_text(desk.get("c"), row);
            drop(desk);
            end == Some(None) && written
        }
        Err(_) => false,
    }
}

/// The first text that another certificate has.
fn wrong_certificate(alloc: Global, rows: &[Written]) -> Option<&'static str> {
    for row in rows {
        if !is_written(alloc, row) {
            return Some(row.2);
        }
    }
    None
}

#[test]
fn certificates_have_these_lines(rt: HostRuntime) {
    assert_eq!(rt; wrong_certificate(rt.alloc(), WRITTEN), None);
}

/// The most that a call of the desk moves, the call that fails, and the file that a sweep over no packages leaves.
type Leaving = (usize, u64, Option<&'static str>);

const LEAVING: &[Leaving] = &[
    (100, 1, None),
    (100, 2, Some("")),
    (10, 3, Some("distfuture")),
    (100, 3, Some(FIRST)),
    (
        100,
        4,
        Some("distfuture-certificate 1 strong plain 10000 0 0 0\ne\n"),
    ),
];

/// Whether a sweep over no packages is told as a fault of writing, and leaves the file of a row.
fn leaves(alloc: Global, row: &Leaving) -> bool {
    if row.0 == 0 {
        return false;
    }
    match MemoryDesk::new(alloc, row.0, &[row.1]) {
        Ok(mut desk) => {
            let end = end_of(alloc, "", (false, 10000), &Limits::stated(), &mut desk);
            let held = is_held(desk.get("c"), row.2);
            drop(desk);
            end == Some(Some(WorkError::WriteFault)) && held
        }
        Err(_) => false,
    }
}

/// The place of the first row that leaves another file.
fn wrong_leaving(alloc: Global, rows: &[Leaving]) -> Option<usize> {
    for place in 0..rows.len() {
        if !leaves(alloc, &rows[place]) {
            return Some(place);
        }
    }
    None
}

#[test]
fn a_fault_of_the_desk_leaves_what_was_written(rt: HostRuntime) {
    assert_eq!(rt; wrong_leaving(rt.alloc(), LEAVING), None);
}

/// Stanzas, a number that their sweep passes, and the file that is left.
type Stopping = (&'static str, What, u32, Option<&'static str>);

/// The lines before the question that needs a derived line.
const BEFORE: &str =
    "distfuture-certificate 1 strong plain 10000 5 5 6\nq 1\nm 1\ns 1 1 0 0\nq 2\nm 2\ns 2 2 0 0\nq 3\nm 3\ns 3 3 0 0\nq 4\nm 4\ns 4 4 0 0\nq 5\n";

const STOPPING: &[Stopping] = &[
    (APART, What::Clauses, 1, None),
    (APART, What::Literals, 3, None),
    ("", What::RecordLine, 49, Some("")),
    ("", What::Certificate, 49, Some("")),
    ("", What::Certificate, 51, Some(FIRST)),
    (CROSSED, What::Lines, 0, Some(BEFORE)),
    (CROSSED, What::LineLiterals, 0, Some(BEFORE)),
];

/// Whether a sweep stops at a row's number, and leaves its file.
fn stops(alloc: Global, row: &Stopping) -> bool {
    let (stanzas, what, number, file) = *row;
    match MemoryDesk::new(alloc, 4096, &[]) {
        Ok(mut desk) => {
            let limits = limited(what, number);
            let end = end_of(alloc, stanzas, (false, 10000), &limits, &mut desk);
            let held = is_held(desk.get("c"), file);
            drop(desk);
            end == Some(Some(WorkError::TooLarge(what))) && held
        }
        Err(_) => false,
    }
}

/// The place of the first row that stops otherwise.
fn wrong_stop(alloc: Global, rows: &[Stopping]) -> Option<usize> {
    for place in 0..rows.len() {
        if !stops(alloc, &rows[place]) {
            return Some(place);
        }
    }
    None
}

#[test]
fn a_limit_stops_before_the_line_that_passes_it(rt: HostRuntime) {
    assert_eq!(rt; wrong_stop(rt.alloc(), STOPPING), None);
}

#[test]
fn the_laws_hold() {
    budgets_are_enough();
    explanation_budgets_are_enough();
    repair_budgets_are_enough();
}
