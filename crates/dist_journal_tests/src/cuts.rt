//! A journal that is cut off at each of its bytes.
use crate::journals::{archive_of, is_answered};
use dist_archive::Archive;
use dist_archive::StepError::NotOne;
use dist_journal::FollowError::{self, Bad};
use dist_journal::JournalFault::{BadBlock, BadStep, Refused, Stray};
use dist_samples::LIBRARY;
use std::alloc::Global;

const JOURNAL: &str =
    "= upload libx 2\nPackage: libx\nVersion: 2\n\n= new\nPackage: foo\nVersion: 1\n";

/// How many bytes have an answer.
type Cuts = (usize, Result<u32, FollowError>);

/// One after another.
const CUTS: &[Cuts] = &[
    // Nothing; an equals sign alone; a step line that is not whole.
    (1, Ok(0)),
    (1, Err(Bad(1, Stray))),
    (13, Err(Bad(1, BadStep))),
    // The step line, without its end and with it; a field that is not whole; a stanza without a version.
    (2, Ok(1)),
    (9, Err(Bad(2, BadBlock))),
    (5, Err(Bad(2, BadBlock))),
    (7, Err(Bad(3, BadBlock))),
    (2, Err(Bad(3, BadBlock))),
    // The version; a step line that is not whole.
    (3, Ok(1)),
    (1, Err(Bad(5, BadBlock))),
    (3, Err(Bad(5, BadStep))),
    // The step line; its block.
    (2, Err(Bad(5, Refused(NotOne)))),
    (9, Err(Bad(6, BadBlock))),
    (4, Err(Bad(6, BadBlock))),
    (7, Err(Bad(7, BadBlock))),
    (2, Err(Bad(7, BadBlock))),
    (2, Ok(2)),
];

/// Whether an archive answers the first bytes of the journal, so many of them, so.
fn is_cut(
    alloc: Global,
    archive: &mut Archive,
    bytes: usize,
    wanted: Result<u32, FollowError>,
) -> bool {
    match JOURNAL.as_bytes().get(..bytes) {
        Some(front) => is_answered(alloc, archive, front, wanted),
        None => false,
    }
}

/// Whether the first bytes of the journal, so many of them, are answered so.
fn is_so(alloc: Global, bytes: usize, wanted: Result<u32, FollowError>) -> bool {
    let Some(mut archive) = archive_of(alloc, LIBRARY) else {
        return false;
    };
    let so = is_cut(alloc, &mut archive, bytes, wanted);
    drop(archive);
    so
}

/// The first cut of so many, from some bytes on, that is answered otherwise.
fn wrong_cut(
    alloc: Global,
    bytes: usize,
    many: usize,
    wanted: Result<u32, FollowError>,
) -> Option<usize> {
    for length in bytes..bytes.saturating_add(many) {
        if !is_so(alloc, length, wanted) {
            return Some(length);
        }
    }
    None
}

/// The first cut that is answered otherwise, or of which nothing is told.
fn wrong_cut_of(alloc: Global, rows: &[Cuts]) -> Option<usize> {
    let mut bytes = 0usize;
    for (many, wanted) in rows {
        if let Some(wrong) = wrong_cut(alloc, bytes, *many, *wanted) {
            return Some(wrong);
        }
        bytes = bytes.saturating_add(*many);
    }
    if bytes == JOURNAL.len() + 1 {
        None
    } else {
        Some(bytes)
    }
}

#[test]
fn each_cut_is_answered(rt: HostRuntime) {
    assert_eq!(rt; wrong_cut_of(rt.alloc(), CUTS), None);
}
