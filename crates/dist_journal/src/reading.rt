//! The step of an entry.
ghost use Rattle.std.specs.Prelude.{◌≡◌, ◌⊎◌, ◌+◌, ◌<◌, ◌^◌, ℕ, List, IfOk, length};
ghost use Rattle.dist_base.specs.Answers.{Answers};
ghost use Rattle.dist_control.specs.Lines.{lines};
ghost use Rattle.dist_repo.specs.declared.package.Package.{Package};
ghost use Rattle.dist_space.specs.Space.{SpaceView};
ghost use Rattle.dist_archive.specs.Archive.{IsInRange};
ghost use Rattle.dist_archive.specs.Moved.{IsClusterNamed};
ghost use Rattle.dist_journal.specs.Blocks.{IsBlockOf, IsBlockRefused};
ghost use Rattle.dist_journal.specs.Faults.{IsEntryError};
ghost use Rattle.dist_journal.specs.FollowPrivate.{IsBlockError, entry_of};
ghost use Rattle.dist_journal.specs.Journal.{Says, words};
ghost use Rattle.dist_journal.specs.Steps.{IsStepOf};
ghost use Rattle.dist_journal.specs.declared.step_line.StepLine.TheVariants as step_line;

use crate::cutting::first_stray;
use crate::fault::{FollowError, JournalFault};
use crate::step_line::{StepLine, read_step_line};
use dist_archive::{Archive, Step};
use dist_package::{PackagesError, read_packages};
use dist_relation::Name;
use dist_repo::Repository;
use dist_version::Version;
use std::alloc::Global;

/// A step line, with its number, and the text of its block.
#[derive(Clone, Copy)]
pub(crate) struct Section<'a> {
    pub(crate) number: u64,
    pub(crate) line: &'a [u8],
    pub(crate) block: &'a [u8],
}

/// The error of a fault of a block, whose lines are numbered behind a line. More lines than 64-bit numbers count are want of
/// memory.
fn bad_block(number: u64, line: u64) -> FollowError
    ensures { (result ≡ FollowError.NoMemory) ⊎ (result ≡ FollowError.Bad (number + line) JournalFault.BadBlock) }
{
    match number.checked_add(line) {
        Some(line) => FollowError::Bad(line, JournalFault::BadBlock),
        None => FollowError::NoMemory,
    }
}

/// The error of a block whose lines are numbered behind a line.
fn block_error(number: u64, error: PackagesError) -> FollowError
    ensures refused { (limit : ℕ) (block : List (List ℕ)) → IsBlockRefused limit block error
        → (result ≡ FollowError.NoMemory) ⊎ IsBlockError limit number block result }
    ensures no_memory { error ≡ PackagesError.NoMemory → result ≡ FollowError.NoMemory }
{
    match error {
        PackagesError::Bad(fault) => bad_block(number, fault.line),
        PackagesError::TooMany => FollowError::TooMany,
        PackagesError::NoMemory => FollowError::NoMemory,
    }
}

/// The packages of a block whose lines are numbered behind a line.
fn read_block(
    alloc: Global,
    number: u64,
    block: &[u8],
    stanzas: u32,
) -> Result<Repository, FollowError>
    ensures { Answers (IsBlockOf stanzas (lines block.now)) (IsBlockError stanzas number (lines block.now))
        FollowError.NoMemory result }
{
    match read_packages(alloc, block, stanzas) {
        Ok(packages) => Ok(packages),
        Err(error) => Err(block_error(number, error)),
    }
}

/// The upload of a cluster that a section tells by a name.
fn read_upload_of(
    alloc: Global,
    section: &Section,
    stanzas: u32,
    cluster: u32,
    version: Version,
) -> Result<Step, FollowError>
    ensures answers { (s : SpaceView) (name : List ℕ) (packages : List Package)
        → Says (words section.now.line.now) (step_line.Upload name version) → IsClusterNamed s name cluster
        → Answers (IsStepOf s stanzas (entry_of section.now)) (IsEntryError s stanzas packages (entry_of section.now))
        FollowError.NoMemory result }
    ensures in_range { (s : SpaceView) → cluster < length s.clusters.members → IfOk result (IsInRange s) }
{
    match read_block(alloc, section.number, section.block, stanzas) {
        Ok(packages) => Ok(Step::Upload(cluster, version, packages)),
        Err(error) => Err(error),
    }
}

/// The upload that a section tells.
fn read_upload(
    alloc: Global,
    archive: &Archive,
    section: &Section,
    stanzas: u32,
    name: Name,
    version: Version,
) -> Result<Step, FollowError>
    requires { Says (words section.now.line.now) (step_line.Upload name version) }
    ensures answers { Answers (IsStepOf archive.now.space stanzas (entry_of section.now))
        (IsEntryError archive.now.space stanzas archive.now.packages (entry_of section.now)) FollowError.NoMemory result }
    ensures in_range { IfOk result (IsInRange archive.now.space) }
{
    match archive.cluster_named(name.bytes()) {
        Some(cluster) => read_upload_of(alloc, section, stanzas, cluster, version),
        None => Err(FollowError::Bad(section.number, JournalFault::UnknownName)),
    }
}

/// The removal that a section tells.
fn read_removal(section: &Section, name: Name) -> Result<Step, FollowError>
    requires says { Says (words section.now.line.now) (step_line.Removal name) }
    requires room { section.now.number + 1 + length section.now.block.now < 2 ^ 64 }
    ensures answers { (s : SpaceView) (limit : ℕ) (packages : List Package) → Answers (IsStepOf s limit (entry_of section.now))
        (IsEntryError s limit packages (entry_of section.now)) FollowError.NoMemory result }
    ensures in_range { (s : SpaceView) → IfOk result (IsInRange s) }
{
    match first_stray(section.block, section.number + 1) {
        Some(line) => Err(FollowError::Bad(line, JournalFault::Stray)),
        None => Ok(Step::Removal(name)),
    }
}

/// The new name that a section tells.
fn read_new_name(alloc: Global, section: &Section, stanzas: u32) -> Result<Step, FollowError>
    requires { Says (words section.now.line.now) step_line.NewName }
    ensures answers { (s : SpaceView) (packages : List Package) → Answers (IsStepOf s stanzas (entry_of section.now))
        (IsEntryError s stanzas packages (entry_of section.now)) FollowError.NoMemory result }
    ensures in_range { (s : SpaceView) → IfOk result (IsInRange s) }
{
    match read_block(alloc, section.number, section.block, stanzas) {
        Ok(packages) => Ok(Step::NewName(packages)),
        Err(error) => Err(error),
    }
}

/// The step that a section tells, whose step line says this.
fn read_said(
    alloc: Global,
    archive: &Archive,
    section: &Section,
    stanzas: u32,
    said: StepLine,
) -> Result<Step, FollowError>
    requires says { Says (words section.now.line.now) said }
    requires room { section.now.number + 1 + length section.now.block.now < 2 ^ 64 }
    ensures answers { Answers (IsStepOf archive.now.space stanzas (entry_of section.now))
        (IsEntryError archive.now.space stanzas archive.now.packages (entry_of section.now)) FollowError.NoMemory result }
    ensures in_range { IfOk result (IsInRange archive.now.space) }
{
    match said {
        StepLine::Upload(name, version) => {
            read_upload(alloc, archive, section, stanzas, name, version)
        }
        StepLine::Removal(name) => read_removal(section, name),
        StepLine::NewName => read_new_name(alloc, section, stanzas),
    }
}

/// The step that a section tells.
pub(crate) fn read_step(
    alloc: Global,
    archive: &Archive,
    section: &Section,
    stanzas: u32,
) -> Result<Step, FollowError>
    requires { section.now.number + 1 + length section.now.block.now < 2 ^ 64 }
    ensures answers { Answers (IsStepOf archive.now.space stanzas (entry_of section.now))
        (IsEntryError archive.now.space stanzas archive.now.packages (entry_of section.now)) FollowError.NoMemory result }
    ensures in_range { IfOk result (IsInRange archive.now.space) }
{
    match read_step_line(alloc, section.line) {
        Ok(Some(said)) => read_said(alloc, archive, section, stanzas, said),
        Ok(None) => Err(FollowError::Bad(section.number, JournalFault::BadStep)),
        Err(_) => Err(FollowError::NoMemory),
    }
}
