//! Sorts lines of versions by the order of versions.
ghost use Rattle.std.specs.Prelude.{◌≡◌, IfOk, IsPermutation, OnOk};
ghost use Rattle.std.specs.List.{flat_map};
ghost use Rattle.std.specs.List.Sorted.{IsSorted, IsStable};
ghost use Rattle.dist_base.specs.Answers.{Answers};
ghost use Rattle.dist_version.specs.Order.{version_cmp};
ghost use Rattle.dist_version.specs.Spelling.{ReadsVersion};
ghost use Rattle.dist_bench.specs.Versions.{AddsLine, AreVersions, HasLineFault, HasNoVersion, IsSortedText, IsVersionFault, version_line};

use crate::error::JobError;
use dist_control::split_line;
use dist_version::{Version, VersionError};
use std::alloc::{AllocError, Global};

/// The version of a line.
fn read_line(alloc: Global, line: &[u8]) -> Result<Version, JobError>
    ensures { Answers (ReadsVersion line.now) (IsVersionFault line.now) JobError.NoMemory result }
{
    match Version::read(alloc, line) {
        Ok(version) => Ok(version),
        Err(VersionError::NoMemory) => Err(JobError::NoMemory),
        Err(fault) => Err(JobError::NoVersion(fault)),
    }
}

/// Adds the version of a line, unless the line is empty.
fn add_line(alloc: Global, versions: &mut Vec<Version>, line: &[u8]) -> Result<(), JobError>
    ensures { Answers (λ _. AddsLine line.now versions.old.items versions.new.items) (HasLineFault line.now) JobError.NoMemory result }
{
    if line.is_empty() {
        return Ok(());
    }
    versions.push(read_line(alloc, line)?)?;
    Ok(())
}

/// The versions of the lines that are not empty.
fn read_lines(alloc: Global, text: &[u8]) -> Result<Vec<Version>, JobError>
    ensures { Answers (λ versions. AreVersions text.now versions.items) (HasNoVersion text.now) JobError.NoMemory result }
{
    let mut versions = Vec::new(alloc);
    let mut rest = text;
    while !rest.is_empty() {
        let (line, after) = split_line(rest);
        add_line(alloc, &mut versions, line)?;
        rest = after;
    }
    Ok(versions)
}

/// Sorts versions. Equal ones stay in their order.
fn sort(versions: &mut Vec<Version>) -> Result<(), AllocError>
    ensures same { IsPermutation versions.old.items versions.new.items }
    ensures sorted { OnOk result (IsSorted version_cmp versions.new.items) }
    ensures stable { IsStable version_cmp versions.old.items versions.new.items }
{
    versions.sort_by(|first, second| first.compare(second))
}

/// The versions, one a line.
fn text_of(alloc: Global, versions: &[Version]) -> Result<Vec<u8>, AllocError>
    ensures { IfOk result (λ text. text.items ≡ flat_map version_line versions.now) }
{
    let mut text = Vec::new(alloc);
    for version in versions {
        text.extend_from_slice(version.text())?;
        text.push(b'\n')?;
    }
    Ok(text)
}

/// The lines in the order of their versions.
pub fn sorted_text(alloc: Global, text: &[u8]) -> Result<Vec<u8>, JobError>
    ensures { Answers (λ answer. IsSortedText text.now answer.items) (HasNoVersion text.now) JobError.NoMemory result }
{
    let mut versions = read_lines(alloc, text)?;
    sort(&mut versions)?;
    Ok(text_of(alloc, &versions)?)
}
