//! Certificates that are judged by futures and refused, each at the line and for the cause of its first fault.
use crate::faults::{Edit, Text, install_again, is_told, whole_front, wrong_edit, wrong_text};
use crate::future_certificates::{
    BROKEN, CROWDED, DOUBTED, ESSENTIAL, FOUR, MARKED, MOVING, OLD, SHUT_OUT, STALE,
};
use dist_cert::CertCause::{
    self, BadHeader, BadLine, BadRecord, Incomplete, LimitNotReached, NotAFuture,
    NotAnInstallation, NotNew, OutOfOrder, OutOfRange, UnknownLine, WrongClaim,
};
use dist_samples::LIBRARY;
use std::alloc::Global;

/// Of the certificate of outdated packages.
const STALE_EDITS: &[Edit] = &[
    // The numbers of the present, those of all packages, and another mode's.
    (
        1,
        1,
        "distfuture-certificate 1 outdated plain 10000 2 2 1\n",
        1,
        BadHeader,
    ),
    (
        1,
        1,
        "distfuture-certificate 1 outdated plain 10000 3 7 7\n",
        1,
        BadHeader,
    ),
    (
        1,
        1,
        "distfuture-certificate 1 outdated plain 10000 2 7 8\n",
        1,
        BadHeader,
    ),
    // Lines of a wrong form.
    (2, 2, "q 2 2\n", 2, BadRecord),
    (6, 6, "m 3 1\n", 6, BadRecord),
    (4, 4, "o 0\n", 4, BadRecord),
    (7, 7, "a 2\n", 7, BadRecord),
    (9, 9, "e\n", 9, BadRecord),
    // Variables above the last.
    (2, 2, "q 8\n", 2, OutOfRange),
    (6, 6, "m 8\n", 6, OutOfRange),
    (3, 3, "d 8 0 5\n", 3, OutOfRange),
    // Answers without a question.
    (2, 2, "f 5\n", 2, OutOfOrder),
    (2, 2, "u\n", 2, OutOfOrder),
    // Of an outdated package the refutation is missing, is wrong, or is that of another question.
    (3, 3, "", 3, WrongClaim),
    (3, 3, "f 4\n", 3, BadLine),
    (3, 3, "f 8\n", 3, UnknownLine),
    (2, 2, "q 1 2\n", 4, WrongClaim),
    // The archive is as it is, and b is at a class; both b as it is and at a class; and a without what it needs.
    (6, 6, "m 1 3 6\n", 6, NotAFuture),
    (6, 6, "m 3 6\n", 6, NotAFuture),
    (6, 6, "m 2 3\n", 6, NotAnInstallation),
    // The installation has not got the package as it is, or is none.
    (6, 6, "m 6 7\n", 7, WrongClaim),
    (7, 7, "a 2 2\n", 7, WrongClaim),
    // Letters of other kinds, and a package that is passed over.
    (4, 4, "x 1\n", 4, WrongClaim),
    (7, 7, "c 2 1 0 0\n", 7, WrongClaim),
    (4, 4, "o 2\n", 4, OutOfOrder),
    (8, 8, "o 3\ne\n", 8, OutOfOrder),
    (5, 7, "", 5, Incomplete),
    // Nothing is undecided without work.
    (3, 3, "u\n", 3, LimitNotReached),
    (4, 4, "y 1\n", 4, WrongClaim),
];

/// Of the certificate with a package of which it is left undecided whether it is outdated.
const DOUBTED_EDITS: &[Edit] = &[
    (3, 3, "", 3, LimitNotReached),
    (3, 3, "d 4 -2 0 9\n", 3, BadLine),
    // Lines that are not new: propagation finds them, with another first literal too, and one speaks of a package that the
    // question does not reach.
    (3, 3, "d -6 -2 0 1\n", 4, NotNew),
    (3, 3, "d -2 4 0 9 10\n", 4, NotNew),
    (3, 3, "d 4 -2 -13 0 9 10\n", 4, NotNew),
    // One line too many that is not new.
    (3, 3, "d -6 -2 0 1\nd 4 -2 0 9 10\n", 5, NotNew),
];

/// Of the certificate of challenges of the library and p.
const BROKEN_EDITS: &[Edit] = &[
    (
        1,
        1,
        "distfuture-certificate 1 challenged plain 10000 2 2 1\n",
        1,
        BadHeader,
    ),
    (
        1,
        1,
        "distfuture-certificate 1 challenged plain 10000 2 11 15\n",
        1,
        BadHeader,
    ),
    // Lines of a wrong form.
    (2, 2, "q 1 1\n", 2, BadRecord),
    (3, 3, "m 2 1\n", 3, BadRecord),
    (4, 4, "c 1 0 0\n", 4, BadRecord),
    (13, 13, "c 2 2 3 0 1 2 1 0\n", 13, BadRecord),
    (15, 15, "e\n", 15, BadRecord),
    // Variables above the last, and a hint above the last number.
    (5, 5, "q 12\n", 5, OutOfRange),
    (6, 6, "m 1 12\n", 6, OutOfRange),
    (10, 10, "d 12 0 1\n", 10, OutOfRange),
    (10, 10, "d -3 0 17\n", 10, UnknownLine),
    (10, 10, "f 17\n", 10, UnknownLine),
    // Answers without a question, claims that are passed over, and too few of them.
    (2, 2, "f 1\n", 2, OutOfOrder),
    (2, 2, "u\n", 2, OutOfOrder),
    (10, 10, "f 6 12 5 1\nf 6 12 5 1\n", 11, OutOfOrder),
    (4, 4, "c 2 1 0 0\n", 4, OutOfOrder),
    (14, 14, "x 3\ne\n", 14, OutOfOrder),
    (5, 13, "", 5, Incomplete),
    // The archive is as it is, and the library is at a class; it is at two classes at once; and p is there without what it
    // needs.
    (6, 6, "m 1 4\n", 6, NotAFuture),
    (8, 8, "m 3 4 5 6\n", 8, NotAFuture),
    (8, 8, "m 3 4\n", 8, NotAnInstallation),
    // A pair is listed that an installation covers; one is left out that nothing covers.
    (13, 13, "c 2 2 3 0 1 1 1 2 1 3 0\n", 13, WrongClaim),
    (13, 13, "c 2 2 3 0 1 2 0\n", 13, Incomplete),
    (13, 13, "c 2 2 3 0 0\n", 13, Incomplete),
    (
        7,
        13,
        "q 3 6\nf 6 12 5 1\nq 3 8\nf 8 12 5 2\nc 2 2 0 1 2 1 3 0\n",
        11,
        Incomplete,
    ),
    // A pair of no class, one of the package's own cluster, and one that is listed without its refutation.
    (13, 13, "c 2 2 3 0 1 2 1 3 1 4 0\n", 13, WrongClaim),
    (13, 13, "c 2 2 3 0 1 2 1 3 2 1 0\n", 13, WrongClaim),
    (11, 12, "", 11, WrongClaim),
    (12, 12, "f 8 12 5 1\n", 12, BadLine),
    // No installation of today, and one without the package.
    (6, 6, "m 2 3\n", 13, WrongClaim),
    (13, 13, "c 2 1 3 0 1 2 1 3 0\n", 13, WrongClaim),
    // Letters of other kinds.
    (4, 4, "o 1\n", 4, WrongClaim),
    (4, 4, "a 1 1\n", 4, WrongClaim),
    (4, 4, "s 1 1 0 0\n", 4, WrongClaim),
];

/// Of the certificate of challenges with a pair that is left undecided.
const MARKED_EDITS: &[Edit] = &[
    // An installation of the claim's group covers the undecided pair, though the claim does not name it.
    (2, 2, "m 1 2 4 5\nm 1 2 4\n", 9, WrongClaim),
    // The limit is not reached, or the question is another one.
    (
        1,
        1,
        "distfuture-certificate 1 challenged plain 2 4 13 14\n",
        7,
        LimitNotReached,
    ),
    (5, 5, "q 12 2\n", 8, WrongClaim),
    // A line that propagation finds is not new, nor is one that speaks of a package that the question does not reach.
    (6, 6, "d -6 -2 0 1\n", 7, NotNew),
    (6, 6, "d -13 4 -2 0 9 10\n", 7, NotNew),
];

/// Of the certificate of outdated packages at mode essential.
const SHUT_OUT_EDITS: &[Edit] = &[
    (
        1,
        1,
        "distfuture-certificate 1 outdated plain 10000 2 7 9\n",
        1,
        BadHeader,
    ),
    // Nothing of the essential name is there: without p, with it, and in the refutation.
    (2, 2, "m 1\n", 2, NotAnInstallation),
    (2, 2, "m 1 3\n", 2, NotAnInstallation),
    (5, 5, "f 5 6\n", 5, BadLine),
    (2, 2, "m 1 2 4\n", 2, NotAFuture),
    (4, 5, "", 4, WrongClaim),
    (6, 6, "a 2 1\n", 6, WrongClaim),
];

/// Of the certificate of challenges at mode essential.
const CROWDED_EDITS: &[Edit] = &[
    (
        1,
        1,
        "distfuture-certificate 1 challenged plain 10000 2 11 18\n",
        1,
        BadHeader,
    ),
    (5, 5, "m 3 4\n", 5, NotAnInstallation),
    (5, 5, "m 3 4 5 8\n", 5, NotAFuture),
    (7, 7, "f 6 1 5 12 13\n", 7, BadLine),
    (10, 10, "c 2 2 3 0 1 3 0\n", 10, Incomplete),
    (10, 10, "c 2 2 3 0 1 1 1 2 1 3 0\n", 10, WrongClaim),
];

/// A certificate with its edits, and what it is over.
type Edited = (&'static str, &'static str, &'static [Edit]);

const EDITED: &[Edited] = &[
    (OLD, STALE, STALE_EDITS),
    (FOUR, DOUBTED, DOUBTED_EDITS),
    (ESSENTIAL, SHUT_OUT, SHUT_OUT_EDITS),
    (LIBRARY, BROKEN, BROKEN_EDITS),
    (MOVING, CROWDED, CROWDED_EDITS),
    (FOUR, MARKED, MARKED_EDITS),
];

/// What the first edit that is not refused as it says puts in.
fn wrong_edit_of(alloc: Global, all: &[Edited]) -> Option<&'static str> {
    for (stanzas, text, edits) in all {
        if let Some(wrong) = wrong_edit(alloc, stanzas, text, edits) {
            return Some(wrong);
        }
    }
    None
}

#[test]
fn edits_of_certificates_on_futures_are_refused(rt: HostRuntime) {
    assert_eq!(rt; wrong_edit_of(rt.alloc(), EDITED), None);
}

#[test]
fn fronts_of_a_certificate_of_outdated_packages_are_truncated(rt: HostRuntime) {
    assert_eq!(rt; whole_front(rt.alloc(), OLD, STALE.as_bytes()), None);
}

#[test]
fn fronts_of_a_certificate_of_challenges_are_truncated(rt: HostRuntime) {
    assert_eq!(rt; whole_front(rt.alloc(), LIBRARY, BROKEN.as_bytes()), None);
}

const TEXTS: &[Text] = &[
    // The mode decides how many clauses there are.
    (
        ESSENTIAL,
        "distfuture-certificate 1 challenged plain 10000 2 7 9\n",
        1,
        BadHeader,
    ),
    // A space has a variable even where there are no packages.
    (
        "",
        "distfuture-certificate 1 outdated plain 10000 0 0 0\ne\n",
        1,
        BadHeader,
    ),
];

#[test]
fn texts_on_futures_are_refused(rt: HostRuntime) {
    assert_eq!(rt; wrong_text(rt.alloc(), TEXTS), None);
}

/// A package without relations.
const ONE: &str = "Package: a\nVersion: 1\n";

/// First lines over it: variable 1 says that the archive is as it is, and 2 that the package is there.
const IF_OUTDATED: &str = "distfuture-certificate 1 outdated plain 10000 1 4 3\n";

const IF_CHALLENGED: &str = "distfuture-certificate 1 challenged plain 10000 1 4 3\n";

/// A first line, how many installations stand behind it, the last lines, and the line and the cause of the refusal, where there is
/// one.
type Many = (&'static str, usize, &'static str, Option<(u64, CertCause)>);

/// The latest 1,024 installations may be named.
const MANY: &[Many] = &[
    (IF_OUTDATED, 1024, "a 1 1\ne\n", None),
    (IF_OUTDATED, 1025, "a 1 1\ne\n", Some((1027, WrongClaim))),
    (IF_OUTDATED, 1025, "a 1 2\ne\n", None),
    (IF_CHALLENGED, 1024, "c 1 1 0 0\ne\n", None),
    (
        IF_CHALLENGED,
        1025,
        "c 1 1 0 0\ne\n",
        Some((1027, WrongClaim)),
    ),
    (IF_CHALLENGED, 1025, "c 1 2 0 0\ne\n", None),
];

/// Whether a row is refused as it says, or is accepted where it says so.
fn is_judged(alloc: Global, row: &Many) -> bool {
    let mut text = Vec::new(alloc);
    let so = install_again(&mut text, row.0, row.1).is_some()
        && text.extend_from_slice(row.2.as_bytes()).is_ok()
        && is_told(alloc, ONE, &text, row.3);
    drop(text);
    so
}

/// The place of the first row that is judged otherwise.
fn wrong_many(alloc: Global, rows: &[Many]) -> Option<usize> {
    for place in 0..rows.len() {
        if !is_judged(alloc, &rows[place]) {
            return Some(place);
        }
    }
    None
}

#[test]
fn the_latest_1024_installations_of_futures_may_be_named(rt: HostRuntime) {
    assert_eq!(rt; wrong_many(rt.alloc(), MANY), None);
}
