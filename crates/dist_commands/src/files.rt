//! The stages that read files.
ghost use Rattle.std.specs.Prelude.{◌≤◌, length, IfOk, IfErr, Option};
ghost use Rattle.dist_base.specs.declared.TheConstants.{MAX_BYTES, MAX_STANZAS};
ghost use Rattle.dist_outside.specs.Files.{Files, IsNotWriting};
ghost use Rattle.dist_outside.specs.DeskView.{OnlyReads};
ghost use Rattle.dist_repo.specs.Order.{IsInOrder};
ghost use Rattle.dist_repo.specs.Size.{IsWithinSize};
ghost use Rattle.dist_commands.specs.Stages.{Goes, Ends};
ghost use Rattle.dist_commands.specs.TextStage.{TextStage};
ghost use Rattle.dist_commands.specs.PackagesStage.{PackagesStage};
ghost use Rattle.dist_commands.specs.RepositoryStage.{RepositoryStage};
ghost use Rattle.dist_commands.specs.DuePrivate.{IsDue, IsPartGivenUp};
ghost use Rattle.dist_commands.specs.StatedLimits.{IsWithinStated};

use crate::refusal::{Refusal, refusal_of};
use dist_outside::{Desk, Limits, What, read_whole};
use dist_package::{PackagesError, read_packages};
use dist_repo::Repository;
use std::alloc::Global;

/// The bytes of a file, within a limit.
pub(crate) fn text_of<D: Desk>(
    alloc: Global,
    desk: &mut D,
    name: &str,
    limit: u64,
) -> Result<Vec<u8>, Refusal>
    requires { IsNotWriting (D.view desk.old).mode }
    ensures goes { IfOk result (λ bytes. TextStage (D.view desk.old).files name.now limit (Goes bytes.items)) }
    ensures due { IfErr result (IsDue (λ ending. TextStage (D.view desk.old).files name.now limit (Ends ending)) (D.view desk.old) (D.view desk.new)) }
    ensures only_reads { OnlyReads (D.view desk.old) (D.view desk.new) }
{
    match read_whole(alloc, desk, name, limit) {
        Ok(bytes) => Ok(bytes),
        Err(error) => Err(refusal_of(error)),
    }
}

/// The repository of a Packages text.
fn repository_of(alloc: Global, text: &[u8], stanzas: u32) -> Result<Repository, Refusal>
    requires bytes { length text.now ≤ MAX_BYTES }
    requires stanzas { stanzas ≤ MAX_STANZAS }
    ensures goes { IfOk result (λ repository. (files : Option Files) → RepositoryStage files stanzas text.now (Goes repository)) }
    ensures given_up { IfErr result (λ refusal. (files : Option Files) → IsPartGivenUp (λ ending. RepositoryStage files stanzas text.now (Ends ending)) files refusal) }
    ensures within_size { IfOk result (λ repository. IsWithinSize repository) }
{
    match read_packages(alloc, text, stanzas) {
        Ok(repository) => Ok(repository),
        Err(PackagesError::Bad(fault)) => Err(Refusal::BadPackages(fault)),
        Err(PackagesError::TooMany) => Err(Refusal::TooLarge(What::Stanzas)),
        Err(PackagesError::NoMemory) => Err(Refusal::NoMemory),
    }
}

/// The repository of a Packages file. Its text is given up once it is taken apart.
pub(crate) fn read_repository<D: Desk>(
    alloc: Global,
    desk: &mut D,
    name: &str,
    limits: &Limits,
) -> Result<Repository, Refusal>
    requires not_writing { IsNotWriting (D.view desk.old).mode }
    requires within { IsWithinStated limits.now }
    ensures goes { IfOk result (λ repository. PackagesStage (D.view desk.old).files limits.now name.now (Goes repository)) }
    ensures due { IfErr result (IsDue (λ ending. PackagesStage (D.view desk.old).files limits.now name.now (Ends ending)) (D.view desk.old) (D.view desk.new)) }
    ensures in_order { IfOk result (λ repository. IsInOrder repository.packages) }
    ensures within_size { IfOk result (λ repository. IsWithinSize repository) }
    ensures only_reads { OnlyReads (D.view desk.old) (D.view desk.new) }
{
    match text_of(alloc, desk, name, limits.bytes) {
        Ok(text) => {
            let repository = repository_of(alloc, &text, limits.stanzas);
            drop(text);
            repository
        }
        Err(refusal) => Err(refusal),
    }
}
