//! Texts that are refused, each at the line and for the cause of its first fault, and where a reader and a writer stop.
use crate::line_texts::{PLAIN, Way, copied};
use dist_cert::CertCause::{self, BadHeader, BadRecord, LineTooLong, Truncated};
use dist_cert::{CertFault, ReadCertError};
use dist_outside::{What, WorkError};
use std::alloc::Global;

const FIRST: &str = "distfuture-certificate 1 strong plain 10000 2 2 1\n";

/// Why copying fails, if it does, and how many bytes are written then.
type End = (Option<ReadCertError>, usize);

/// How copying a text ends.
fn ends_of(alloc: Global, text: &[u8], from: &Way, to: &Way) -> Option<End> {
    let (answer, written) = copied(alloc, text, &[], from, to)?;
    let length = written.len();
    drop(written);
    Some((answer.err(), length))
}

/// How copying a first line and the text behind it ends.
fn ends(alloc: Global, first: &str, more: &str, from: &Way, to: &Way) -> Option<End> {
    let mut text = Vec::new(alloc);
    let made = text.extend_from_slice(first.as_bytes()).is_ok()
        && text.extend_from_slice(more.as_bytes()).is_ok();
    let ends = if made {
        ends_of(alloc, &text, from, to)
    } else {
        None
    };
    drop(text);
    ends
}

/// A first line, the text behind it, and the line and the cause of the refusal.
type Refused = (&'static str, &'static str, u64, CertCause);

const REFUSED: &[Refused] = &[
    // The form of a first line.
    ("\n", "e\n", 1, BadHeader),
    (
        "distfuture-certificate 2 strong plain 10000 2 2 1\n",
        "e\n",
        1,
        BadHeader,
    ),
    (
        "distfuture-certificate 1 strong plain 0 2 2 1\n",
        "e\n",
        1,
        BadHeader,
    ),
    (
        "distfuture-certificate 1 strong plain 1000001 2 2 1\n",
        "e\n",
        1,
        BadHeader,
    ),
    (
        "distfuture-certificate 1 strong plain 10000 02 2 1\n",
        "e\n",
        1,
        BadHeader,
    ),
    (
        "distfuture-certificate 1 strong plain 10000 2 2 1 \n",
        "e\n",
        1,
        BadHeader,
    ),
    (
        "distfuture-certificate 1 strong plain 10000 2 2\n",
        "e\n",
        1,
        BadHeader,
    ),
    (
        "distfuture-certificate 1 strong plain 10000 2 2 4294967296\n",
        "e\n",
        1,
        BadHeader,
    ),
    // The form of numbers.
    (FIRST, "q 01\n", 2, BadRecord),
    (FIRST, "q -0\n", 2, BadRecord),
    (FIRST, "q 0\n", 2, BadRecord),
    (FIRST, "q  1\n", 2, BadRecord),
    (FIRST, "q 1 \n", 2, BadRecord),
    (FIRST, "q --1\n", 2, BadRecord),
    (FIRST, "q 4294967296\n", 2, BadRecord),
    (FIRST, "q 1\r\n", 2, BadRecord),
    // The rules of a line on its own.
    (FIRST, "\n", 2, BadRecord),
    (FIRST, "q\n", 2, BadRecord),
    (FIRST, "q 1 2 -1\n", 2, BadRecord),
    (FIRST, "d 2 2 0 1\n", 2, BadRecord),
    (FIRST, "d 1 2\n", 2, BadRecord),
    (FIRST, "m 2 1\n", 2, BadRecord),
    (FIRST, "f 0\n", 2, BadRecord),
    (FIRST, "x 0\n", 2, BadRecord),
    (FIRST, "a 1\n", 2, BadRecord),
    (FIRST, "s 1 0 0\n", 2, BadRecord),
    (FIRST, "c 1 1 0 1 0\n", 2, BadRecord),
    (FIRST, "u 1\n", 2, BadRecord),
    // Texts that are cut.
    ("", "", 1, Truncated),
    ("distfuture", "", 1, Truncated),
    (FIRST, "", 2, Truncated),
    (FIRST, "e", 2, Truncated),
    (FIRST, "u\nq 1", 3, Truncated),
    (FIRST, "e\nu", 3, Truncated),
    // Lines behind the end.
    (FIRST, "e\ne\n", 3, BadRecord),
    (FIRST, "e\n\n", 3, BadRecord),
];

/// Whether a text is refused as its row says.
fn is_refused(alloc: Global, row: &Refused) -> bool {
    let (first, more, line, cause) = *row;
    match ends(alloc, first, more, &PLAIN, &PLAIN) {
        Some((error, _)) => error == Some(ReadCertError::Bad(CertFault { line, cause })),
        None => false,
    }
}

/// The place of the first text that is not refused as its row says.
fn wrong_refusal(alloc: Global, rows: &[Refused]) -> Option<usize> {
    for place in 0..rows.len() {
        if !is_refused(alloc, &rows[place]) {
            return Some(place);
        }
    }
    None
}

#[test]
fn texts_are_refused(rt: HostRuntime) {
    assert_eq!(rt; wrong_refusal(rt.alloc(), REFUSED), None);
}

/// The text behind the first line, how it is read and written, why that fails, if it does, and how many bytes are written
/// then.
type Stopped = (&'static str, Way, Way, Option<ReadCertError>, usize);

const LONG: Option<ReadCertError> = Some(ReadCertError::Bad(CertFault {
    line: 1,
    cause: LineTooLong,
}));

const LINE: Option<ReadCertError> = Some(ReadCertError::Work(WorkError::TooLarge(
    What::RecordLine,
)));

const WHOLE: Option<ReadCertError> = Some(ReadCertError::Work(WorkError::TooLarge(
    What::Certificate,
)));

const READ: Option<ReadCertError> = Some(ReadCertError::Work(WorkError::ReadFault));

const WRITE: Option<ReadCertError> = Some(ReadCertError::Work(WorkError::WriteFault));

const STOPPED: &[Stopped] = &[
    // The first line has 49 bytes and its line feed. A reader within limits:
    ("u\ne\n", (50, 54, 7, 0), PLAIN, None, 54),
    ("u\ne\n", (49, 54, 7, 0), PLAIN, LONG, 0),
    ("u\ne\n", (50, 53, 7, 0), PLAIN, WHOLE, 52),
    ("u\ne\n", (49, 49, 7, 0), PLAIN, LONG, 0),
    ("u\ne\n", (49, 48, 7, 0), PLAIN, WHOLE, 0),
    // A writer within limits.
    ("x 1\ne\n", PLAIN, (50, 56, 7, 0), None, 56),
    ("x 1\ne\n", PLAIN, (49, 56, 7, 0), LINE, 0),
    ("x 1\ne\n", PLAIN, (50, 55, 7, 0), WHOLE, 54),
    ("x 1\ne\n", PLAIN, (50, 49, 7, 0), WHOLE, 0),
    // Calls: the start, then reads of 30 bytes, the second of which fails.
    ("", (u64::MAX, u64::MAX, 30, 3), PLAIN, READ, 0),
    // Calls: create, then writes of 7 bytes, the third of which fails.
    ("x 1\ne\n", PLAIN, (u64::MAX, u64::MAX, 7, 4), WRITE, 14),
];

/// Whether copying stops as its row says.
fn is_stopped(alloc: Global, row: &Stopped) -> bool {
    match ends(alloc, FIRST, row.0, &row.1, &row.2) {
        Some((error, length)) => error == row.3 && length == row.4,
        None => false,
    }
}

/// The place of the first copy that does not stop as its row says.
fn wrong_stop(alloc: Global, rows: &[Stopped]) -> Option<usize> {
    for place in 0..rows.len() {
        if !is_stopped(alloc, &rows[place]) {
            return Some(place);
        }
    }
    None
}

#[test]
fn a_copy_stops(rt: HostRuntime) {
    assert_eq!(rt; wrong_stop(rt.alloc(), STOPPED), None);
}
