//! Worked rows: files of repairs over small spaces, what they answer, and why they are refused.
ghost use Rattle.dist_outside.specs.Files.{IsNotWriting};

use crate::spaces::small_space;
use dist_cert::CertCause;
use dist_future::Space;
use dist_outside::{Limits, MemoryDesk};
use dist_repair::{
    Repair, RepairHeader, RepairVerdict, accepted_repairs_hold, check_repair,
    repairs_have_one_answer,
};
use std::alloc::Global;

/// A package that needs a later version of another one.
const LATER: &str = "Package: libx\nVersion: 1\n\nPackage: p\nVersion: 1\nDepends: libx (= 2)\n";

/// One that needs later versions of two others.
const TWO_LATER: &str =
    "Package: a\nVersion: 1\n\nPackage: b\nVersion: 1\n\nPackage: p\nVersion: 1\nDepends: a (= 2), b (= 2)\n";

/// The same, where the two are of one source.
const ONE_SOURCE: &str =
    "Package: a\nVersion: 1\nSource: s\n\nPackage: b\nVersion: 1\nSource: s\n\nPackage: p\nVersion: 1\nDepends: a (= 2), b (= 2)\n";

/// One that needs an earlier version.
const EARLIER: &str = "Package: foo\nVersion: 1\n\nPackage: p\nVersion: 1\nDepends: foo (<< 1)\n";

/// One that can be installed as it is.
const TODAY: &str = "Package: a\nVersion: 1\nDepends: b\n\nPackage: b\nVersion: 1\n";

/// What a file answers: a package, from 0, how many clusters must move for it, whether that is undecided, and how many are enough,
/// if that is known; or that it is outdated; or the line and cause of its first fault.
#[derive(Clone, Copy)]
enum Told {
    Bounds(u32, u32, bool, Option<u32>),
    Outdated(u32),
    Fault(u64, CertCause),
}

type Row = (&'static str, &'static str, Told);

const ROWS: &[Row] = &[
    (
        LATER,
        "distfuture-repair 1 10000 2 15 23 2 0\nq 3 -15\nf 12 7 18 21 22\nm 3 6 7 12 14 15\ne\n",
        Told::Bounds(1, 1, false, Some(1)),
    ),
    // The words of a question in the other order, and a cluster without a class that is said to have moved.
    (
        LATER,
        "distfuture-repair 1 10000 2 15 23 2 0\nm 3 6 7 12 13 14 15\nq -15 3\nf 12 7 18 21 22\ne\n",
        Told::Bounds(1, 1, false, Some(1)),
    ),
    // Counted up to one cluster, with a question on none, and one on one.
    (
        LATER,
        "distfuture-repair 1 10000 2 17 25 2 1\nq 3 -16\nf 12 7 18 21 22\nm 3 6 7 12 14 16\ne\n",
        Told::Bounds(1, 1, false, Some(1)),
    ),
    (
        LATER,
        "distfuture-repair 1 10000 2 17 25 2 1\nq -17 3\nm 3 6 7 12 14 16\ne\n",
        Told::Fault(4, CertCause::Incomplete),
    ),
    (
        TWO_LATER,
        "distfuture-repair 1 10000 3 24 41 3 0\nq 4 -24\nf 21 10 31 37 38 40\nm 4 7 8 13 14 19 20 22 23 24\ne\n",
        Told::Bounds(2, 1, false, Some(2)),
    ),
    (
        ONE_SOURCE,
        "distfuture-repair 1 10000 3 19 30 3 0\nq 4 -19\nf 18 9 25 28 29\nm 4 8 9 10 16 18 19\ne\n",
        Told::Bounds(2, 1, false, Some(1)),
    ),
    (
        TODAY,
        "distfuture-repair 1 10000 2 11 12 1 0\nm 2 3\ne\n",
        Told::Bounds(0, 0, false, Some(0)),
    ),
    (
        EARLIER,
        "distfuture-repair 1 10000 2 11 12 2 0\nq 3\nf 5\ne\n",
        Told::Outdated(1),
    ),
    // Nothing is refuted, or nothing is installed.
    (
        LATER,
        "distfuture-repair 1 10000 2 15 23 2 0\nq 3 -15\nm 3 6 7 12 14 15\ne\n",
        Told::Fault(4, CertCause::Incomplete),
    ),
    (
        LATER,
        "distfuture-repair 1 10000 2 15 23 2 0\nq 3 -15\nf 12 7 18 21 22\ne\n",
        Told::Fault(4, CertCause::Incomplete),
    ),
    // An installation that counts no cluster that has moved, and a claim.
    (
        LATER,
        "distfuture-repair 1 10000 2 15 23 2 0\nq 3 -15\nf 12 7 18 21 22\nm 3 6 7\ne\n",
        Told::Fault(4, CertCause::NotAnInstallation),
    ),
    (
        LATER,
        "distfuture-repair 1 10000 2 15 23 2 0\no 1\ne\n",
        Told::Fault(2, CertCause::WrongClaim),
    ),
    // A package that is not there, and more clusters than are counted to.
    (
        LATER,
        "distfuture-repair 1 10000 2 15 23 3 0\ne\n",
        Told::Fault(1, CertCause::BadHeader),
    ),
    (
        LATER,
        "distfuture-repair 1 10000 2 15 23 2 65\ne\n",
        Told::Fault(1, CertCause::BadHeader),
    ),
];

/// What is told of an accepted file.
fn told_of(header: RepairHeader, repair: &Repair) -> Told {
    match repair {
        Repair::Outdated => Told::Outdated(header.package),
        Repair::Least(number, _) => Told::Bounds(header.package, *number, false, Some(*number)),
        Repair::AtLeast(lower, undecided, Some((upper, _))) => {
            Told::Bounds(header.package, *lower, *undecided, Some(*upper))
        }
        Repair::AtLeast(lower, undecided, None) => {
            Told::Bounds(header.package, *lower, *undecided, None)
        }
    }
}

/// Whether both are told alike.
fn is_same(told: Told, wanted: Told) -> bool {
    match (told, wanted) {
        (Told::Bounds(a, b, c, d), Told::Bounds(e, f, g, h)) => a == e
            && b == f
            && c == g
            && d == h,
        (Told::Outdated(package), Told::Outdated(other)) => package == other,
        (Told::Fault(line, cause), Told::Fault(other, wanted)) => line == other && cause == wanted,
        _ => false,
    }
}

/// What is told of a file that is judged.
fn told_by(verdict: &RepairVerdict) -> Told {
    match verdict {
        RepairVerdict::Accepted(header, repair) => told_of(*header, repair),
        RepairVerdict::Refused(fault) => Told::Fault(fault.line, fault.cause),
    }
}

/// Whether the file on a desk answers what is wanted.
fn is_told(alloc: Global, space: &Space, desk: &mut MemoryDesk, wanted: Told) -> bool
    requires { IsNotWriting desk.old.mode }
{
    match check_repair(alloc, space, desk, "c", &Limits::stated()) {
        Ok(verdict) => {
            let told = told_by(&verdict);
            drop(verdict);
            is_same(told, wanted)
        }
        Err(_) => false,
    }
}

/// Whether a text over a space answers what is wanted.
fn is_told_of(alloc: Global, space: &Space, text: &str, wanted: Told) -> bool {
    match MemoryDesk::new(alloc, 7, &[]) {
        Ok(mut desk) => {
            let so = desk.put("c", text.as_bytes()).is_ok()
                && is_told(alloc, space, &mut desk, wanted);
            drop(desk);
            so
        }
        Err(_) => false,
    }
}

/// Whether a row's file answers what the row says.
fn is_so(alloc: Global, row: &Row) -> bool {
    match small_space(alloc, row.0, false) {
        Some(space) => {
            let so = is_told_of(alloc, &space, row.1, row.2);
            drop(space);
            so
        }
        None => false,
    }
}

/// The first file that answers something else.
fn wrong_file(alloc: Global, rows: &[Row]) -> Option<&'static str> {
    for row in rows {
        if !is_so(alloc, row) {
            return Some(row.1);
        }
    }
    None
}

#[test]
fn repairs_are_told(rt: HostRuntime) {
    assert_eq!(rt; wrong_file(rt.alloc(), ROWS), None);
}

#[test]
fn the_laws_hold() {
    accepted_repairs_hold();
    repairs_have_one_answer();
}
