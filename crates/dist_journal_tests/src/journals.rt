//! How a row of a journal runs.
ghost use Rattle.std.specs.Bool.{OnTrue};
ghost use Rattle.std.specs.Prelude.{◌<◌, ◌+◌, length};

use dist_archive::{Archive, start};
use dist_journal::{FollowError, follow};
use dist_samples::repository;
use dist_space::{Space, space_of};
use std::alloc::Global;

/// What a row shows, the journal, the answer, and what is held after it: names and versions.
pub(crate) type Row = (
    &'static str,
    &'static str,
    Result<u32, FollowError>,
    &'static [(&'static str, &'static str)],
);

/// The space of some stanzas.
fn space_of_stanzas(alloc: Global, stanzas: &str) -> Option<Space> {
    let repo = repository(alloc, stanzas)?;
    if repo.is_flat() && repo.is_within_size() {
        space_of(alloc, repo, false, 1000).ok()
    } else {
        drop(repo);
        None
    }
}

/// The archive of some stanzas.
pub(crate) fn archive_of(alloc: Global, stanzas: &str) -> Option<Archive> {
    match space_of_stanzas(alloc, stanzas) {
        Some(space) => start(alloc, space).ok(),
        None => None,
    }
}

/// Whether the packages and the bytes are few enough.
fn is_small(archive: &Archive, journal: &[u8]) -> bool
    ensures { OnTrue result (length archive.now.packages + length journal.now < 4294967295) }
{
    journal.len() < 100_000 && archive.len() < 100_000
}

/// The answer of a journal, whose blocks may have two stanzas.
fn answer(
    alloc: Global,
    archive: &mut Archive,
    journal: &[u8],
) -> Option<Result<u32, FollowError>> {
    if is_small(archive, journal) {
        Some(follow(alloc, archive, journal, 2))
    } else {
        None
    }
}

/// Whether two answers are the same.
fn are_same(answer: Result<u32, FollowError>, wanted: Result<u32, FollowError>) -> bool {
    match (answer, wanted) {
        (Ok(steps), Ok(other)) => steps == other,
        (Err(error), Err(other)) => error == other,
        _ => false,
    }
}

/// Whether an archive answers a journal so.
pub(crate) fn is_answered(
    alloc: Global,
    archive: &mut Archive,
    journal: &[u8],
    wanted: Result<u32, FollowError>,
) -> bool {
    match answer(alloc, archive, journal) {
        Some(given) => are_same(given, wanted),
        None => false,
    }
}

/// Whether an archive follows a journal to its end.
pub(crate) fn is_followed(alloc: Global, archive: &mut Archive, journal: &[u8]) -> bool {
    match answer(alloc, archive, journal) {
        Some(given) => given.is_ok(),
        None => false,
    }
}

/// Whether the archive has a package of this name at this version.
fn has(archive: &Archive, name: &str, version: &str) -> bool {
    match archive.held(name.as_bytes()) {
        Some(package) => package.version.text() == version.as_bytes(),
        None => false,
    }
}

/// Whether the archive has exactly these packages.
fn has_exactly(archive: &Archive, packages: &[(&str, &str)]) -> bool {
    for (name, version) in packages {
        if !has(archive, name, version) {
            return false;
        }
    }
    archive.len() as usize == packages.len()
}

/// Whether a row's journal over some stanzas is answered so, and leaves these packages.
fn is_so(alloc: Global, stanzas: &str, row: &Row) -> bool {
    let Some(mut archive) = archive_of(alloc, stanzas) else {
        return false;
    };
    let so = is_answered(alloc, &mut archive, row.1.as_bytes(), row.2)
        && has_exactly(&archive, row.3);
    drop(archive);
    so
}

/// What the first row over some stanzas shows that is answered otherwise, or leaves other packages.
pub(crate) fn wrong_row(alloc: Global, stanzas: &str, rows: &[Row]) -> Option<&'static str> {
    for row in rows {
        if !is_so(alloc, stanzas, row) {
            return Some(row.0);
        }
    }
    None
}
