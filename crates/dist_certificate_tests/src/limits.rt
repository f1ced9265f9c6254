//! Texts that pass a number, lines that are too long, and files that are not read.
use crate::future_certificates::{BROKEN, CROWDED, MOVING, OLD, STALE};
use dist_cert::CertCause::LineTooLong;
use dist_check::Verdict;
use dist_outside::{Limits, What, WorkError};
use dist_samples::{LIBRARY, TEN, TWO, limited};
use dist_verdicts::{answer, answer_at, at, edited};
use std::alloc::Global;

/// A line of the certificate of a and b, or one that it hasn't, what takes its place, and a number that the text passes.
type Passed = (u64, &'static str, What, u32);

const PASSED: &[Passed] = &[
    (99, "", What::Certificate, 102),
    // The clauses are counted before the numbers of the first line are looked at.
    (
        1,
        "distfuture-certificate 1 strong plain 10000 3 3 1\n",
        What::Clauses,
        0,
    ),
    (
        1,
        "distfuture-certificate 1 strong plain 10000 3 3 1\n",
        What::Literals,
        1,
    ),
    // Kinds on futures count the variables and the clauses of their space, 7 of each.
    (
        1,
        "distfuture-certificate 1 outdated plain 10000 3 3 1\n",
        What::Variables,
        6,
    ),
    (
        1,
        "distfuture-certificate 1 challenged plain 10000 3 3 1\n",
        What::Clauses,
        6,
    ),
    (
        1,
        "distfuture-certificate 1 outdated essential 10000 3 3 1\n",
        What::Literals,
        14,
    ),
    (3, "d -1 2 0 1\n", What::Lines, 0),
    (3, "d -1 2 0 1\n", What::LineLiterals, 1),
];

/// Whether a text passes a number where it is at most this.
fn is_too_large(alloc: Global, text: &[u8], what: What, number: u32) -> bool {
    match answer(alloc, TWO, text, &limited(what, number)) {
        Some(Ok(verdict)) => {
            drop(verdict);
            false
        }
        Some(Err(error)) => error == WorkError::TooLarge(what),
        None => false,
    }
}

/// Whether a row passes its number.
fn is_passed(alloc: Global, row: &Passed) -> bool {
    match edited(alloc, TEN, row.0, row.0, row.1) {
        Some(text) => {
            let passed = is_too_large(alloc, &text, row.2, row.3);
            drop(text);
            passed
        }
        None => false,
    }
}

/// The place of the first row that is answered otherwise.
fn wrong_number(alloc: Global, rows: &[Passed]) -> Option<usize> {
    for place in 0..rows.len() {
        if !is_passed(alloc, &rows[place]) {
            return Some(place);
        }
    }
    None
}

#[test]
fn numbers_are_counted(rt: HostRuntime) {
    assert_eq!(rt; wrong_number(rt.alloc(), PASSED), None);
}

/// Stanzas, their certificate, a line of it that a longer one takes the place of, or one that it hasn't, the most bytes of a
/// line, and the line that is too long, if one is.
type Long = (&'static str, &'static str, u64, u32, Option<u64>);

/// A line of 63 bytes and its line feed.
const LONGER: &str = "f 1 1 1 1 1 1 1 1 1 1 1 1 1 1 1 1 1 1 1 1 1 1 1 1 1 1 1 1 1 1 1\n";

/// A line may have one byte less than its limit, and its line feed. The first lines have 49, 51, 55 and 59 bytes.
const LONG: &[Long] = &[
    (TWO, TEN, 99, 10, Some(1)),
    (TWO, TEN, 99, 49, Some(1)),
    (TWO, TEN, 99, 50, None),
    (TWO, TEN, 5, 50, Some(5)),
    (OLD, STALE, 99, 51, Some(1)),
    (OLD, STALE, 99, 52, None),
    (OLD, STALE, 3, 52, Some(3)),
    (LIBRARY, BROKEN, 99, 55, Some(1)),
    (LIBRARY, BROKEN, 99, 56, None),
    (LIBRARY, BROKEN, 10, 56, Some(10)),
    (MOVING, CROWDED, 99, 59, Some(1)),
    (MOVING, CROWDED, 99, 60, None),
    (MOVING, CROWDED, 7, 60, Some(7)),
];

/// Whether a verdict tells of this line that it is too long, or accepts where there is none.
fn is_long_at(verdict: &Verdict, long: Option<u64>) -> bool {
    match (verdict, long) {
        (Verdict::Refused(fault), Some(line)) => Some(*fault) == at(line, LineTooLong),
        (Verdict::Accepted(_, _), None) => true,
        _ => false,
    }
}

/// Whether a text over some stanzas has a line that is too long, or is accepted where it should not.
fn is_measured(alloc: Global, text: &[u8], row: &Long) -> bool {
    match answer(alloc, row.0, text, &limited(What::RecordLine, row.3)) {
        Some(Ok(verdict)) => {
            let so = is_long_at(&verdict, row.4);
            drop(verdict);
            so
        }
        _ => false,
    }
}

/// Whether a row has a line that is too long, or is accepted where it says so.
fn is_long(alloc: Global, row: &Long) -> bool {
    match edited(alloc, row.1, row.2, row.2, LONGER) {
        Some(text) => {
            let so = is_measured(alloc, &text, row);
            drop(text);
            so
        }
        None => false,
    }
}

/// The place of the first row that is answered otherwise.
fn wrong_length(alloc: Global, rows: &[Long]) -> Option<usize> {
    for place in 0..rows.len() {
        if !is_long(alloc, &rows[place]) {
            return Some(place);
        }
    }
    None
}

#[test]
fn a_line_may_be_too_long(rt: HostRuntime) {
    assert_eq!(rt; wrong_length(rt.alloc(), LONG), None);
}

/// The desk's call that fails, the name that is asked for, and the error of work.
type Failing = (u64, &'static str, Option<WorkError>);

const FAILING: &[Failing] = &[
    (1, "c", Some(WorkError::ReadFault)),
    (5, "c", Some(WorkError::ReadFault)),
    (99, "d", Some(WorkError::ReadFault)),
    (99, "c", None),
];

/// Whether the certificate of a and b is answered as the row says: accepted where there is no error.
fn is_told(alloc: Global, row: &Failing) -> bool {
    match answer_at(
        alloc,
        TWO,
        TEN.as_bytes(),
        &Limits::stated(),
        (row.0, row.1),
    ) {
        Some(Ok(verdict)) => {
            let accepted = matches!(verdict, Verdict::Accepted(_, _));
            drop(verdict);
            row.2.is_none() && accepted
        }
        Some(Err(error)) => row.2 == Some(error),
        None => false,
    }
}

/// The place of the first row that is answered otherwise.
fn wrong_fault(alloc: Global, rows: &[Failing]) -> Option<usize> {
    for place in 0..rows.len() {
        if !is_told(alloc, &rows[place]) {
            return Some(place);
        }
    }
    None
}

#[test]
fn faults_of_the_desk_are_told(rt: HostRuntime) {
    assert_eq!(rt; wrong_fault(rt.alloc(), FAILING), None);
}
