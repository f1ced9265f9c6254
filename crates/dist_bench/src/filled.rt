//! Fills a clause set with equal clauses of four literals.
ghost use Rattle.std.specs.Prelude.{◌≡◌, ◌≤◌, ℕ, IfOk, MatchOption, replicate};
ghost use Rattle.dist_base.specs.Answers.{Answers};
ghost use Rattle.dist_bench.specs.Filled.{HasNoCount, IsCount, IsFilledText, four};

use crate::counted::counted;
use crate::error::JobError;
use dist_base::MAX_CLAUSES;
use dist_clause::{ClauseSet, Lit};
use std::alloc::{AllocError, Global};

/// A set of so many clauses.
fn filled(alloc: Global, count: u32) -> Result<ClauseSet, AllocError>
    requires { count ≤ MAX_CLAUSES }
    ensures { IfOk result (λ set. set.clauses ≡ replicate count four) }
{
    let clause = [
        Lit::new(1, true),
        Lit::new(2, false),
        Lit::new(3, true),
        Lit::new(4, false),
    ];
    let mut set = ClauseSet::new(alloc, 4, count, 4 * count);
    for _ in 0..count {
        // The limits leave room for all of them, so what may be missing is memory.
        if set.push(&clause).is_err() {
            return Err(AllocError);
        }
    }
    Ok(set)
}

/// How many clauses a set has that was filled with so many.
fn filled_count(alloc: Global, count: u32) -> Result<u32, AllocError>
    requires { count ≤ MAX_CLAUSES }
    ensures { IfOk result (λ clauses. clauses ≡ count) }
{
    Ok(filled(alloc, count)?.len())
}

/// The number of clauses that a text says.
fn count_of(text: &str) -> Option<u32>
    ensures { MatchOption result ((count : ℕ) → ¬ IsCount text.now count) (λ count. IsCount text.now count) }
{
    match text.trim().parse::<u32>() {
        Ok(count) => {
            if count > MAX_CLAUSES {
                return None;
            }
            Some(count)
        }
        Err(_) => None,
    }
}

/// Fills a set with as many clauses as the text says, and tells their number.
pub fn filled_text(alloc: Global, text: &str) -> Result<Vec<u8>, JobError>
    ensures { Answers (λ answer. IsFilledText text.now answer.items) (HasNoCount text.now) JobError.NoMemory result }
{
    let Some(count) = count_of(text) else {
        return Err(JobError::NoCount);
    };
    let clauses = filled_count(alloc, count)?;
    Ok(counted(alloc, u128::from(clauses), b" clauses\n")?)
}
