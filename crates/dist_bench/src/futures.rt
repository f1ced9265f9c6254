//! Makes the space of the futures of a Packages file, and counts its variables.
ghost use Rattle.std.specs.Prelude.{◌≡◌, length};
ghost use Rattle.dist_base.specs.Answers.{Answers};
ghost use Rattle.dist_bench.specs.Futures.{HasNoSpace, IsVariablesText, OfSpace};

use crate::counted::counted;
use crate::error::JobError;
use crate::packages::newest_of;
use dist_base::MAX_VARIABLES;
use dist_space::{Space, SpaceError, space_of};
use std::alloc::Global;

/// The space of the newest packages of a file, at mode plain.
pub(crate) fn space_of_file(alloc: Global, text: &[u8]) -> Result<Space, JobError>
    ensures { Answers (λ space. OfSpace text.now (λ other. other ≡ space)) (HasNoSpace text.now) JobError.NoMemory result }
{
    let newest = newest_of(alloc, text)?;
    match space_of(alloc, newest, false, MAX_VARIABLES) {
        Ok(space) => Ok(space),
        Err(SpaceError::TooManyVariables) => Err(JobError::TooManyVariables),
        Err(SpaceError::NoMemory) => Err(JobError::NoMemory),
    }
}

/// How many variables the space has.
fn variable_count(alloc: Global, text: &[u8]) -> Result<u32, JobError>
    ensures { Answers (λ count. OfSpace text.now (λ space. count ≡ length space.meanings)) (HasNoSpace text.now) JobError.NoMemory result }
{
    let space = space_of_file(alloc, text)?;
    let count = space.variables();
    drop(space);
    Ok(count)
}

/// How many variables the space of the newest packages of the file has.
pub fn variables_text(alloc: Global, text: &[u8]) -> Result<Vec<u8>, JobError>
    ensures { Answers (λ answer. IsVariablesText text.now answer.items) (HasNoSpace text.now) JobError.NoMemory result }
{
    let variables = variable_count(alloc, text)?;
    Ok(counted(alloc, u128::from(variables), b" variables\n")?)
}
