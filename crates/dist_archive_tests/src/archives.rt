//! Small archives for tests, and how a row of steps runs.
ghost use Rattle.std.specs.Bool.{OnTrue};
ghost use Rattle.std.specs.Prelude.{◌<◌, ◌+◌, length};
ghost use Rattle.dist_archive.specs.Archive.{IsInRange, brought};

use dist_archive::{Archive, Step, StepError, start};
use dist_relation::Name;
use dist_repo::same;
use dist_samples::repository;
use dist_space::{Space, space_of};
use dist_version::Version;
use std::alloc::Global;

/// A step of a row: the upload of a package's cluster at a version with the packages of some stanzas, the removal of a name, or
/// some stanzas of a new name.
pub(crate) enum Told {
    Upload(&'static str, &'static str, &'static str),
    Removal(&'static str),
    NewName(&'static str),
}

/// What a row shows, the stanzas of the repository, steps with the refusal of each, if it is refused, and then what is held:
/// names and versions.
pub(crate) type Row = (
    &'static str,
    &'static str,
    &'static [(Told, Option<StepError>)],
    &'static [(&'static str, &'static str)],
);

/// The space of some stanzas.
pub(crate) fn space_of_stanzas(alloc: Global, stanzas: &str) -> Option<Space> {
    let repo = repository(alloc, stanzas)?;
    if repo.is_flat() && repo.is_within_size() {
        space_of(alloc, repo, false, 1000).ok()
    } else {
        drop(repo);
        None
    }
}

/// The number of the cluster of the package of a name.
fn cluster_named(space: &Space, name: &str) -> Option<u32> {
    for number in 0..space.package_count() {
        if space.package(number).name.bytes() == name.as_bytes() {
            return Some(space.cluster_of(number));
        }
    }
    None
}

/// An upload of a cluster.
fn upload_of(alloc: Global, cluster: u32, version: &str, stanzas: &str) -> Option<Step> {
    match repository(alloc, stanzas) {
        Some(block) => match Version::read(alloc, version.as_bytes()) {
            Ok(version) => Some(Step::Upload(cluster, version, block)),
            Err(_) => {
                drop(block);
                None
            }
        },
        None => None,
    }
}

/// The step that is told.
pub(crate) fn step_of(alloc: Global, space: &Space, told: &Told) -> Option<Step> {
    match told {
        Told::Upload(name, version, stanzas) => {
            upload_of(alloc, cluster_named(space, name)?, version, stanzas)
        }
        Told::Removal(name) => match Name::read(alloc, name.as_bytes()) {
            Ok(name) => Some(Step::Removal(name)),
            Err(_) => None,
        },
        Told::NewName(stanzas) => match repository(alloc, stanzas) {
            Some(block) => Some(Step::NewName(block)),
            None => None,
        },
    }
}

/// Whether a step names a cluster that there is, and brings few packages.
fn can_take(archive: &Archive, step: &Step) -> bool
    ensures in_range { OnTrue result (IsInRange archive.now.space step.now) }
    ensures few { OnTrue result (length archive.now.packages + brought step.now < 4294967295) }
{
    match step {
        Step::Upload(cluster, _, block) => {
            *cluster < archive.space().clusters().len()
                && u64::from(archive.len()) + u64::from(block.len()) < 4_294_967_295
        }
        Step::Removal(_) => archive.len() < 4_294_967_295,
        Step::NewName(block) => {
            u64::from(archive.len()) + u64::from(block.len()) < 4_294_967_295
        }
    }
}

/// Whether the step that is told is refused so, or taken.
pub(crate) fn is_answered(
    alloc: Global,
    archive: &mut Archive,
    told: &Told,
    refusal: Option<StepError>,
) -> bool {
    match step_of(alloc, archive.space(), told) {
        Some(step) => {
            if can_take(archive, &step) {
                archive.apply(step).err() == refusal
            } else {
                drop(step);
                false
            }
        }
        None => false,
    }
}

/// Whether the archive has a package of this name at this version.
fn has(archive: &Archive, name: &str, version: &str) -> bool {
    match archive.held(name.as_bytes()) {
        Some(package) => package.version.text() == version.as_bytes() && same(package, package),
        None => false,
    }
}

/// Whether the archive has exactly these packages.
fn has_exactly(archive: &Archive, packages: &[(&str, &str)]) -> bool {
    for (name, version) in packages {
        if !has(archive, name, version) {
            return false;
        }
    }
    archive.len() as usize == packages.len()
}

/// Whether steps are answered so.
fn are_answered(alloc: Global, archive: &mut Archive, steps: &[(Told, Option<StepError>)]) -> bool {
    for (told, refusal) in steps {
        if !is_answered(alloc, archive, told, *refusal) {
            return false;
        }
    }
    true
}

/// The archive of some stanzas.
fn archive_of(alloc: Global, stanzas: &str) -> Option<Archive> {
    match space_of_stanzas(alloc, stanzas) {
        Some(space) => start(alloc, space).ok(),
        None => None,
    }
}

/// Whether a row's steps are answered so, and leave these packages.
fn is_so(alloc: Global, row: &Row) -> bool {
    match archive_of(alloc, row.1) {
        Some(mut archive) => {
            let so = are_answered(alloc, &mut archive, row.2) && has_exactly(&archive, row.3);
            drop(archive);
            so
        }
        None => false,
    }
}

/// What the first row shows whose steps are answered otherwise, or leave other packages.
pub(crate) fn wrong_row(alloc: Global, rows: &[Row]) -> Option<&'static str> {
    for row in rows {
        if !is_so(alloc, row) {
            return Some(row.0);
        }
    }
    None
}
