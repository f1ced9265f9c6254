//! Certificates that are refused, each at the line and for the cause of its first fault.
use dist_cert::CertCause::{
    self, BadHeader, BadLine, BadRecord, Incomplete, LimitNotReached, NotAnInstallation, NotNew,
    OutOfOrder, OutOfRange, Truncated, UnknownLine, WrongClaim,
};
use dist_cert::CertFault;
use dist_outside::Limits;
use dist_samples::{PAIR, TEN, TWO};
use dist_verdicts::{at, edited, fault_of, is_accepted};
use std::alloc::Global;

/// The first and the last of some lines of a certificate, what takes their place, and the line and the cause of the refusal.
pub(crate) type Edit = (u64, u64, &'static str, u64, CertCause);

/// Of the certificate of a and b.
const EDITS: &[Edit] = &[
    // First lines of other kinds.
    (
        1,
        1,
        "distfuture-certificate 1 outdated plain 10000 2 2 1\n",
        1,
        BadHeader,
    ),
    (
        1,
        1,
        "distfuture-certificate 1 challenged plain 10000 2 2 1\n",
        1,
        BadHeader,
    ),
    (
        1,
        1,
        "distfuture-certificate 1 outdated essential 10000 2 2 1\n",
        1,
        BadHeader,
    ),
    (
        1,
        1,
        "distfuture-certificate 1 strong plain 0 2 2 1\n",
        1,
        BadHeader,
    ),
    (
        1,
        1,
        "distfuture-certificate 1 strong plain 10000 2 2 2\n",
        1,
        BadHeader,
    ),
    // Lines of a wrong form.
    (2, 2, "q 4294967296\n", 2, BadRecord),
    (2, 2, "q 1 1\n", 2, BadRecord),
    (2, 2, "q 1\r\n", 2, BadRecord),
    (3, 3, "m 2 1\n", 3, BadRecord),
    (11, 11, "e\n", 11, BadRecord),
    // Variables above the last.
    (2, 2, "q 3\n", 2, OutOfRange),
    (3, 3, "m 1 3\n", 3, OutOfRange),
    (4, 4, "d 3 0 1\n", 4, OutOfRange),
    // Wrong steps.
    (3, 3, "m 1\n", 3, NotAnInstallation),
    (4, 4, "d 2 0 1\n", 4, BadLine),
    (4, 4, "d 2 0 2\n", 4, UnknownLine),
    (4, 4, "", 4, BadLine),
    (5, 5, "f\n", 5, BadLine),
    (5, 5, "f 2\n", 5, UnknownLine),
    // Answers without a question.
    (2, 2, "f 1\n", 2, OutOfOrder),
    (2, 2, "u\n", 2, OutOfOrder),
    (5, 5, "f 1\nf 1\n", 6, OutOfOrder),
    (5, 5, "u\n", 5, LimitNotReached),
    // Wrong claims.
    (6, 6, "s 2 1 0 2 0\n", 6, OutOfOrder),
    (10, 10, "x 3\ne\n", 10, OutOfOrder),
    (6, 6, "c 1 1 0 0\n", 6, WrongClaim),
    (6, 6, "s 1 2 0 2 0\n", 6, WrongClaim),
    (6, 6, "s 1 1 0 0\n", 6, Incomplete),
    (7, 9, "", 7, Incomplete),
];

/// The fault of an edit.
fn fault_of_edit(alloc: Global, stanzas: &str, text: &str, edit: &Edit) -> Option<CertFault> {
    let text = edited(alloc, text, edit.0, edit.1, edit.2)?;
    let fault = fault_of(alloc, stanzas, &text, &Limits::stated());
    drop(text);
    fault
}

/// What the first edit of a text that is not refused as it says puts in.
pub(crate) fn wrong_edit(
    alloc: Global,
    stanzas: &str,
    text: &str,
    edits: &[Edit],
) -> Option<&'static str> {
    for edit in edits {
        if fault_of_edit(alloc, stanzas, text, edit) != at(edit.3, edit.4) {
            return Some(edit.2);
        }
    }
    None
}

#[test]
fn edits_are_refused(rt: HostRuntime) {
    assert_eq!(rt; wrong_edit(rt.alloc(), TWO, TEN, EDITS), None);
}

/// Stanzas, a text, and the line and the cause of its refusal.
pub(crate) type Text = (&'static str, &'static str, u64, CertCause);

const TEXTS: &[Text] = &[
    // An undecided question needs new lines.
    (
        TWO,
        "distfuture-certificate 1 strong plain 1 2 2 1\nq 1\nd -1 2 0 1\nu\ns 1 1 0 2 0\nq 2\nm 2\ns 2 2 0 0\ne\n",
        4,
        NotNew,
    ),
    // A certificate of no packages is not one of a package.
    (
        "Package: a\nVersion: 1\n",
        "distfuture-certificate 1 strong plain 10000 0 0 0\ne\n",
        1,
        BadHeader,
    ),
    // The mode decides what an installation needs, and how many clauses there are.
    (
        PAIR,
        "distfuture-certificate 1 strong essential 10000 2 2 1\nm 1\n",
        2,
        NotAnInstallation,
    ),
    (
        PAIR,
        "distfuture-certificate 1 strong plain 10000 2 2 1\n",
        1,
        BadHeader,
    ),
    (
        PAIR,
        "distfuture-certificate 1 strong essential 10000 2 2 0\n",
        1,
        BadHeader,
    ),
];

/// The first text that is not refused as its row says.
pub(crate) fn wrong_text(alloc: Global, rows: &[Text]) -> Option<&'static str> {
    for (stanzas, text, line, cause) in rows {
        if fault_of(alloc, stanzas, text.as_bytes(), &Limits::stated()) != at(*line, *cause) {
            return Some(text);
        }
    }
    None
}

#[test]
fn texts_are_refused(rt: HostRuntime) {
    assert_eq!(rt; wrong_text(rt.alloc(), TEXTS), None);
}

/// Whether a front of a certificate is truncated at the line that it ends in.
fn is_truncated(alloc: Global, stanzas: &str, front: &[u8]) -> bool {
    let mut line = 1u64;
    for byte in front {
        if *byte == b'\n' {
            line = line.saturating_add(1);
        }
    }
    fault_of(alloc, stanzas, front, &Limits::stated()) == at(line, Truncated)
}

/// The length of the first front of a certificate that is not truncated.
pub(crate) fn whole_front(alloc: Global, stanzas: &str, text: &[u8]) -> Option<usize> {
    for length in 0..text.len() {
        if !is_truncated(alloc, stanzas, &text[..length]) {
            return Some(length);
        }
    }
    None
}

#[test]
fn fronts_are_truncated(rt: HostRuntime) {
    assert_eq!(rt; whole_front(rt.alloc(), TWO, TEN.as_bytes()), None);
}

/// How many installations stand in place of the first question, the two claims, and the line and the cause of the refusal,
/// where there is one.
type Many = (usize, &'static str, &'static str, Option<(u64, CertCause)>);

/// The latest 1,024 installations may be named.
const MANY: &[Many] = &[
    (1024, "s 1 1 0 2 0\n", "s 2 1025 0 0\n", None),
    (
        1025,
        "s 1 1 0 2 0\n",
        "s 2 1026 0 0\n",
        Some((1029, WrongClaim)),
    ),
    (1100, "s 1 77 0 2 0\n", "s 2 1101 0 0\n", None),
    (
        1100,
        "s 1 76 0 2 0\n",
        "s 2 1101 0 0\n",
        Some((1104, WrongClaim)),
    ),
];

/// Adds a first line, and behind it so many times the installation of variables 1 and 2.
pub(crate) fn install_again(text: &mut Vec<u8>, first: &str, times: usize) -> Option<()> {
    text.extend_from_slice(first.as_bytes()).ok()?;
    for _ in 0..times {
        text.extend_from_slice(b"m 1 2\n").ok()?;
    }
    Some(())
}

/// Adds the text of a row of many installations.
fn add_many(text: &mut Vec<u8>, row: &Many) -> Option<()> {
    let first = "distfuture-certificate 1 strong plain 10000 2 2 1\n";
    install_again(text, first, row.0)?;
    text.extend_from_slice(b"q 1 -2\nf 1\n").ok()?;
    text.extend_from_slice(row.1.as_bytes()).ok()?;
    text.extend_from_slice(b"q 2\nm 2\n").ok()?;
    text.extend_from_slice(row.2.as_bytes()).ok()?;
    text.extend_from_slice(b"e\n").ok()
}

/// Whether a text over some stanzas is refused as it should be, or is accepted where it should not.
pub(crate) fn is_told(
    alloc: Global,
    stanzas: &str,
    text: &[u8],
    refused: Option<(u64, CertCause)>,
) -> bool {
    match refused {
        Some((line, cause)) => fault_of(alloc, stanzas, text, &Limits::stated()) == at(line, cause),
        None => is_accepted(alloc, stanzas, text),
    }
}

/// Whether a row is refused as it says, or is accepted where it says so.
fn is_judged(alloc: Global, row: &Many) -> bool {
    let mut text = Vec::new(alloc);
    let so = add_many(&mut text, row).is_some() && is_told(alloc, TWO, &text, row.3);
    drop(text);
    so
}

/// The place of the first row that is judged otherwise.
fn wrong_many(alloc: Global, rows: &[Many]) -> Option<usize> {
    for place in 0..rows.len() {
        if !is_judged(alloc, &rows[place]) {
            return Some(place);
        }
    }
    None
}

#[test]
fn the_latest_1024_installations_may_be_named(rt: HostRuntime) {
    assert_eq!(rt; wrong_many(rt.alloc(), MANY), None);
}
