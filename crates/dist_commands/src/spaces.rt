//! The stages that make the newest versions and the space of a Packages file.
ghost use Rattle.std.specs.Prelude.{◌≡◌, ◌≤◌, IfErr, IfOk, Option, length};
ghost use Rattle.dist_base.specs.declared.TheConstants.{MAX_VARIABLES};
ghost use Rattle.dist_outside.specs.DeskView.{OnlyReads};
ghost use Rattle.dist_outside.specs.Files.{Files, IsNotWriting};
ghost use Rattle.dist_repo.specs.Order.{IsFlat, IsLatestOf};
ghost use Rattle.dist_repo.specs.Size.{IsWithinSize};
ghost use Rattle.dist_space.specs.SpaceOf.{IsSpaceOf};
ghost use Rattle.dist_commands.specs.DuePrivate.{IsDue, IsPartGivenUp};
ghost use Rattle.dist_commands.specs.LaterPrivate.{HasNoSpace, IsSpaceKept};
ghost use Rattle.dist_commands.specs.PackagesStage.{PackagesStage};
ghost use Rattle.dist_commands.specs.StatedLimits.{IsWithinStated};
ghost use Rattle.dist_commands.specs.SpaceStage.{SpaceStage};
ghost use Rattle.dist_commands.specs.Stages.{Ends, Goes};
ghost use Rattle.dist_commands.specs.Steps.{IsNewestIn, SpaceStages};

use crate::files::read_repository;
use crate::refusal::Refusal;
use dist_outside::{Desk, Limits, What};
use dist_repo::{Repository, latest_is_one};
use dist_space::{Space, SpaceError, space_of};
use std::alloc::Global;

/// The newest versions of a repository.
pub(crate) fn newest_of(repository: &Repository) -> Result<Repository, Refusal>
    requires { IsWithinSize repository.now }
    ensures newest { IfOk result (IsLatestOf repository.now) }
    ensures within_size { IfOk result (λ newest. IsWithinSize newest) }
    ensures given_up { IfErr result (λ refusal. refusal ≡ Refusal.NoMemory) }
{
    // What this call tells is that they are no more than the repository has.
    latest_is_one();
    match repository.latest() {
        Ok(newest) => Ok(newest),
        Err(_) => Err(Refusal::NoMemory),
    }
}

/// The space of packages at a mode, within a number of variables.
pub(crate) fn space_within(
    alloc: Global,
    newest: Repository,
    essential: bool,
    variables: u32,
) -> Result<Space, Refusal>
    requires flat { IsFlat newest.packages }
    requires within_size { IsWithinSize newest }
    requires variables { variables ≤ MAX_VARIABLES }
    ensures space { IfOk result (λ space. IsSpaceOf newest essential space) }
    ensures within { IfOk result (λ space. length space.meanings ≤ variables) }
    ensures given_up { IfErr result (HasNoSpace newest essential variables) }
{
    match space_of(alloc, newest, essential, variables) {
        Ok(space) => Ok(space),
        Err(SpaceError::TooManyVariables) => Err(Refusal::TooLarge(What::Variables)),
        Err(SpaceError::NoMemory) => Err(Refusal::NoMemory),
    }
}

/// The space of the newest versions of a repository at a mode. The other versions are given up once it is made.
pub(crate) fn space_of_file(
    alloc: Global,
    repository: Repository,
    essential: bool,
    limits: &Limits,
) -> Result<Space, Refusal>
    requires within { IsWithinStated limits.now }
    requires within_size { IsWithinSize repository }
    ensures goes { IfOk result (λ space. (files : Option Files) → SpaceStage files limits.now essential repository (Goes space)) }
    ensures given_up { IfErr result (λ refusal. (files : Option Files)
        → IsPartGivenUp (λ ending. SpaceStage files limits.now essential repository (Ends ending)) files refusal) }
    ensures within_size { IfOk result (λ space. IsWithinSize space.repository) }
{
    let newest = newest_of(&repository);
    drop(repository);
    match newest {
        Ok(newest) => space_within(alloc, newest, essential, limits.variables),
        Err(refusal) => Err(refusal),
    }
}

/// The space of PACKAGES.
pub(crate) fn read_space<D: Desk>(
    alloc: Global,
    desk: &mut D,
    packages: &str,
    limits: &Limits,
) -> Result<Space, Refusal>
    requires not_writing { IsNotWriting (D.view desk.old).mode }
    requires within { IsWithinStated limits.now }
    ensures goes { IfOk result (IsSpaceKept (D.view desk.old).files limits.now packages.now) }
    ensures due { IfErr result (IsDue (SpaceStages (D.view desk.old).files limits.now packages.now (λ space ending. ⊥)) (D.view desk.old) (D.view desk.new)) }
    ensures only_reads { OnlyReads (D.view desk.old) (D.view desk.new) }
{
    match read_repository(alloc, desk, packages, limits) {
        Ok(repository) => space_of_file(alloc, repository, false, limits),
        Err(refusal) => Err(refusal),
    }
}

/// The newest versions of a Packages file.
pub(crate) fn read_newest<D: Desk>(
    alloc: Global,
    desk: &mut D,
    name: &str,
    limits: &Limits,
) -> Result<Repository, Refusal>
    requires not_writing { IsNotWriting (D.view desk.old).mode }
    requires within { IsWithinStated limits.now }
    ensures goes { IfOk result (IsNewestIn (D.view desk.old).files limits.now name.now) }
    ensures due { IfErr result (IsDue (λ ending. PackagesStage (D.view desk.old).files limits.now name.now (Ends ending)) (D.view desk.old) (D.view desk.new)) }
    ensures within_size { IfOk result (λ newest. IsWithinSize newest) }
    ensures only_reads { OnlyReads (D.view desk.old) (D.view desk.new) }
{
    match read_repository(alloc, desk, name, limits) {
        Ok(repository) => {
            let newest = newest_of(&repository);
            drop(repository);
            newest
        }
        Err(refusal) => Err(refusal),
    }
}
