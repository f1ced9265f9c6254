//! Makes the clauses of the space of the futures of a Packages file, and counts them.
ghost use Rattle.std.specs.Prelude.{◌≡◌, ◌≤◌, IfOk, length};
ghost use Rattle.dist_base.specs.Answers.{Answers};
ghost use Rattle.dist_clause.specs.ClauseList.{clause_at, literal_count};
ghost use Rattle.dist_bench.specs.FutureClauses.{AreFutureWithin, HasNoFutureClauses, HaveFutureCounts, HaveSpaceCounts, IsFutureClausesText, PassesFutureLimits, future_counts_text};

use crate::counted::{add_counted, counted};
use crate::error::JobError;
use crate::futures::space_of_file;
use dist_base::{MAX_CLAUSES, MAX_LITERALS};
use dist_clause::{ClauseSet, PushError};
use dist_space::Space;
use dist_space_clauses::clauses_of;
use std::alloc::{AllocError, Global};

/// The clauses of a space.
fn space_clauses(alloc: Global, space: &Space) -> Result<ClauseSet, JobError>
    ensures { Answers (λ set. AreFutureWithin space.now set.clauses) (λ error. (error ≡ JobError.TooManyClauses) × PassesFutureLimits space.now)
        JobError.NoMemory result }
{
    match clauses_of(alloc, space, MAX_CLAUSES, MAX_LITERALS) {
        Ok(set) => Ok(set),
        Err(PushError::TooManyClauses) => Err(JobError::TooManyClauses),
        Err(PushError::TooManyLiterals) => Err(JobError::TooManyClauses),
        Err(PushError::NoMemory) => Err(JobError::NoMemory),
    }
}

/// How many literals the clause of a number has.
fn clause_len(set: &ClauseSet, number: u32) -> usize
    requires from_one { 1 ≤ number }
    requires to_len { number ≤ length set.now.clauses }
    ensures { result ≡ length (clause_at set.now.clauses number) }
{
    set.clause(number).len()
}

/// How many literals the clauses have. No set has so many clauses that the number passes 128 bits.
fn literal_count(set: &ClauseSet) -> u128
    ensures { result ≡ literal_count set.now.clauses }
{
    let mut literals = 0u128;
    for place in 0..set.len() {
        let count = clause_len(set, place + 1);
        literals += count as u128;
    }
    literals
}

/// How many clauses and literals there are.
#[derive(Clone, Copy)]
pub(crate) struct SetCounts {
    pub(crate) clauses: u32,
    pub(crate) literals: u128,
}

/// How many clauses a space has, and how many literals they have together.
fn counts_of_space(alloc: Global, space: &Space) -> Result<SetCounts, JobError>
    ensures { Answers (HaveSpaceCounts space.now) (λ error. (error ≡ JobError.TooManyClauses) × PassesFutureLimits space.now)
        JobError.NoMemory result }
{
    let set = space_clauses(alloc, space)?;
    let counts = SetCounts {
        clauses: set.len(),
        literals: literal_count(&set),
    };
    drop(set);
    Ok(counts)
}

/// The same of the space of the newest packages of the file.
fn counts_of(alloc: Global, text: &[u8]) -> Result<SetCounts, JobError>
    ensures { Answers (HaveFutureCounts text.now) (HasNoFutureClauses text.now) JobError.NoMemory result }
{
    let space = space_of_file(alloc, text)?;
    let counts = counts_of_space(alloc, &space);
    drop(space);
    counts
}

/// The counts in words.
fn text_of(alloc: Global, counts: SetCounts) -> Result<Vec<u8>, AllocError>
    ensures { IfOk result (λ text. text.items ≡ future_counts_text counts) }
{
    let mut text = counted(alloc, u128::from(counts.clauses), b" clauses of futures, ")?;
    add_counted(&mut text, counts.literals, b" literals\n")?;
    Ok(text)
}

/// The clauses of the space of the newest packages of the file, counted, in words.
pub fn clauses_text(alloc: Global, text: &[u8]) -> Result<Vec<u8>, JobError>
    ensures { Answers (λ answer. IsFutureClausesText text.now answer.items) (HasNoFutureClauses text.now) JobError.NoMemory result }
{
    let counts = counts_of(alloc, text)?;
    Ok(text_of(alloc, counts)?)
}
