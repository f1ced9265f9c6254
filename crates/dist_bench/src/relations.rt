//! Reads the relation fields of a Packages file, and counts what they hold.
ghost use Rattle.std.specs.Prelude.{◌≡◌, ◌≢◌, ◌⊎◌, ◌+◌, ◌++◌, ℕ, List, IfOk, MatchOption};
ghost use Rattle.dist_base.specs.Answers.{Answers};
ghost use Rattle.dist_control.specs.Lines.{lines};
ghost use Rattle.dist_bench.specs.Relations.{AreCounts, CountsLine, HasNoRelations, HasRelationFault, Holds, IsCountsText, IsFault, IsField, IsNoRelation, relation_counts_text};
ghost use Rattle.dist_bench.specs.declared.error.JobError.TheVariants.{NoRelation};

use crate::counted::{add_counted, counted};
use crate::error::JobError;
use dist_control::split_line;
use dist_relation::{RelationError, read_atoms, read_depends, read_provides};
use std::alloc::{AllocError, Global};

/// What a relation field holds.
#[derive(Clone, Copy)]
pub(crate) enum Kind {
    Depends,
    Conflicts,
    Provides,
}

/// How much was read. No text has so many lines that a count passes 128 bits.
#[derive(Clone, Copy)]
pub(crate) struct Counts {
    pub(crate) dependencies: u128,
    pub(crate) conflicts: u128,
    pub(crate) provided: u128,
}

/// What stands behind a name that a line begins with.
fn behind<'a>(line: &'a [u8], name: &[u8]) -> Option<&'a [u8]>
    ensures { MatchOption result ((value : List ℕ) → line.now ≢ name.now ++ value) (λ value. line.now ≡ name.now ++ value.now) }
{
    line.strip_prefix(name)
}

/// The value of a line, where it begins a field of this kind.
fn value_of(line: &[u8], kind: Kind) -> Option<&[u8]>
    ensures { MatchOption result ((value : List ℕ) → ¬ IsField line.now kind value) (λ value. IsField line.now kind value.now) }
{
    match kind {
        Kind::Depends => behind(line, b"Depends: ").or(behind(line, b"Pre-Depends: ")),
        Kind::Conflicts => behind(line, b"Conflicts: ").or(behind(line, b"Breaks: ")),
        Kind::Provides => behind(line, b"Provides: "),
    }
}

/// Why a job has no answer where a value has no reading.
fn no_relation(error: RelationError) -> JobError
    ensures memory { error ≡ RelationError.NoMemory → result ≡ JobError.NoMemory }
    ensures fault { (result ≡ JobError.NoMemory) ⊎ (result ≡ NoRelation error) }
{
    match error {
        RelationError::NoMemory => JobError::NoMemory,
        fault => JobError::NoRelation(fault),
    }
}

/// How many dependencies, atoms or entries a value has.
fn count(alloc: Global, kind: Kind, value: &[u8]) -> Result<usize, JobError>
    ensures { Answers (Holds kind value.now) (IsNoRelation (IsFault kind value.now)) JobError.NoMemory result }
{
    match kind {
        Kind::Depends => match read_depends(alloc, value) {
            Ok(items) => Ok(items.len()),
            Err(error) => Err(no_relation(error)),
        },
        Kind::Conflicts => match read_atoms(alloc, value) {
            Ok(atoms) => Ok(atoms.len()),
            Err(error) => Err(no_relation(error)),
        },
        Kind::Provides => match read_provides(alloc, value) {
            Ok(entries) => Ok(entries.len()),
            Err(error) => Err(no_relation(error)),
        },
    }
}

/// How many of them a line has.
fn count_line(alloc: Global, kind: Kind, line: &[u8]) -> Result<usize, JobError>
    ensures { Answers (CountsLine kind line.now) (IsNoRelation (HasRelationFault line.now)) JobError.NoMemory result }
{
    match value_of(line, kind) {
        Some(value) => count(alloc, kind, value),
        None => Ok(0),
    }
}

/// What the fields of a text hold.
fn counts_of(alloc: Global, text: &[u8]) -> Result<Counts, JobError>
    ensures { Answers (AreCounts (lines text.now)) (HasNoRelations text.now) JobError.NoMemory result }
{
    let mut dependencies = 0u128;
    let mut conflicts = 0u128;
    let mut provided = 0u128;
    let mut rest = text;
    while !rest.is_empty() {
        let (line, after) = split_line(rest);
        dependencies += count_line(alloc, Kind::Depends, line)? as u128;
        conflicts += count_line(alloc, Kind::Conflicts, line)? as u128;
        provided += count_line(alloc, Kind::Provides, line)? as u128;
        rest = after;
    }
    Ok(Counts {
        dependencies,
        conflicts,
        provided,
    })
}

/// The counts in words.
fn text_of(alloc: Global, counts: Counts) -> Result<Vec<u8>, AllocError>
    ensures { IfOk result (λ text. text.items ≡ relation_counts_text counts) }
{
    let mut text = counted(alloc, counts.dependencies, b" dependencies, ")?;
    add_counted(&mut text, counts.conflicts, b" conflicts, ")?;
    add_counted(&mut text, counts.provided, b" provided\n")?;
    Ok(text)
}

/// How many dependencies, conflict atoms and Provides entries the fields have.
pub fn counts_text(alloc: Global, text: &[u8]) -> Result<Vec<u8>, JobError>
    ensures { Answers (λ answer. IsCountsText text.now answer.items) (HasNoRelations text.now) JobError.NoMemory result }
{
    let counts = counts_of(alloc, text)?;
    Ok(text_of(alloc, counts)?)
}
