//! The package that the option `--package` names.
ghost use Rattle.std.specs.Prelude.{◌<◌, IfErr, IfOk, Option, length};
ghost use Rattle.dist_outside.specs.Files.{Files};
ghost use Rattle.dist_list.specs.NamedPackage.{IsNamed};
ghost use Rattle.dist_commands.specs.DuePrivate.{IsPartGivenUp};
ghost use Rattle.dist_commands.specs.NamedStage.{NamedStage};
ghost use Rattle.dist_commands.specs.Stages.{Ends};

use crate::refusal::Refusal;
use dist_list::package_named;
use dist_repo::Repository;
use std::alloc::Global;

/// The number of the package.
pub(crate) fn find_named(
    alloc: Global,
    repository: &Repository,
    named: &str,
) -> Result<u32, Refusal>
    ensures goes { IfOk result (IsNamed repository.now.packages named.now) }
    ensures given_up { IfErr result (λ refusal. (files : Option Files)
        → IsPartGivenUp (λ ending. NamedStage files repository.now.packages named.now (Ends ending)) files refusal) }
    ensures within { IfOk result (λ number. number < length repository.now.packages) }
{
    match package_named(alloc, repository, named.as_bytes()) {
        Ok(Some(number)) => Ok(number),
        Ok(None) => Err(Refusal::NoSuchPackage),
        Err(_) => Err(Refusal::NoMemory),
    }
}
