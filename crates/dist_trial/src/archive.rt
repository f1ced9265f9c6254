//! The repository of a generated archive.
ghost use Rattle.std.specs.Prelude.{◌≤◌, IfOk};
ghost use Rattle.dist_base.specs.declared.TheConstants.{MAX_SIZE};
ghost use Rattle.dist_repo.specs.Size.{IsWithinSize};
ghost use Rattle.dist_trial.specs.Trial.{ArchiveAnswers};

use dist_generate::{generate, generated_texts_are_archives};
use dist_outside::{Limits, What, WorkError};
use dist_package::{PackagesError, packages_are_exact, read_packages};
use dist_repo::Repository;
use std::alloc::Global;

/// The repository of the archive of a size and a seed, within the limits of its bytes and of its stanzas.
#[tactic(none)]
pub(crate) fn repository_of(
    alloc: Global,
    size: u32,
    seed: u32,
    limits: &Limits,
) -> Result<Repository, WorkError>
    requires some { 1 ≤ size }
    requires few { size ≤ MAX_SIZE }
    ensures answers { ArchiveAnswers size seed limits.now result }
    ensures within_size { IfOk result (λ repo. IsWithinSize repo) }
{
    generated_texts_are_archives();
    packages_are_exact();
    let text = generate(alloc, size, seed)?;
    if text.len() as u64 > limits.bytes {
        return Err(WorkError::TooLarge(What::Bytes));
    }
    match read_packages(alloc, &text, limits.stanzas) {
        Ok(repo) => Ok(repo),
        Err(PackagesError::TooMany) => Err(WorkError::TooLarge(What::Stanzas)),
        Err(PackagesError::NoMemory) => Err(WorkError::NoMemory),
        // A generated text has no fault.
        Err(PackagesError::Bad(_)) => unreachable!(),
    }
}
